// The fields hold values outside their limits too, since a user may enter them.

// A plan's sides, in half inches.
#[derive(Clone, Copy, PartialEq, Eq, Debug)]
pub enum Plan {
    // the length runs along the bridge
    Rectangle { length: u8, width: u8 },
    Circle { diameter: u8 },
}

// A laminated bearing: interior layers of rubber, a cover above and one below, and a steel laminate on either side of each interior layer.
#[derive(Clone, Copy, PartialEq, Eq, Debug)]
pub struct Bearing {
    pub plan: Plan,
    // interior layers of rubber
    pub layers: u8,
    // of an interior layer, in sixteenths of an inch
    pub thickness: u8,
    // thickness of each of the two covers, in sixteenths of an inch
    pub cover: u8,
    // thickness of each steel laminate, in sixty-fourths of an inch
    pub laminate: u8,
    // shear modulus of the rubber, in psi
    pub modulus: u8,
    // yield strength of the steel, in ksi
    pub strength: u8,
}
