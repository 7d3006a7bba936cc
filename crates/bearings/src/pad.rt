// A plain rectangular pad of rubber.
#[derive(Clone, Copy, PartialEq, Eq, Debug)]
pub struct Pad {
    // along the bridge, in half inches
    pub length: u8,
    pub width: u8,
    // in sixteenths of an inch
    pub thickness: u8,
    // shear modulus of the rubber, in psi
    pub modulus: u8,
}
