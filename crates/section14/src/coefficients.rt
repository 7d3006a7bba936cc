// The rotation coefficients as whole numbers: u in quarters, k in eighths, and the product kv in eighths.
#[derive(Clone, Copy)]
pub(crate) struct Row {
    pub(crate) u: u64,
    pub(crate) k: u64,
    pub(crate) kv: u64,
}

// One table, as the coefficients are published. By plan and shear mark: rectangle 1, rectangle 0, circle 1, circle 0.
pub(crate) const ROWS: [Row; 4] = [
    Row { u: 4, k: 15, kv: 3 },
    Row { u: 4, k: 18, kv: 3 },
    Row { u: 3, k: 20, kv: 3 },
    Row { u: 3, k: 24, kv: 3 },
];

// The most that the stress may be, in psi, and the most times GS that the stresses of the whole load and of the live load may be, in hundredths.
#[derive(Clone, Copy)]
pub(crate) struct CompressionLimits {
    pub(crate) stress: u16,
    pub(crate) total: u16,
    pub(crate) live: u16,
}
