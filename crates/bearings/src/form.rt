// A quotient of whole numbers.
#[derive(Clone, Copy)]
pub struct Ratio {
    pub top: u64,
    pub bottom: u64,
}

// What the articles take from a plan and the thickness of a layer: the area A, and the area times the shape factor, AS, both in square inches.
#[derive(Clone, Copy)]
pub struct Form {
    pub area: Ratio,
    pub shape_area: Ratio,
}
