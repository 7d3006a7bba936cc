ghost use Rattle.bearings.specs.Axes.{holds_on_axes};
ghost use Rattle.bearings.specs.Comparisons.{stress_in_psi, stress_in_hundredths, twice_within};
ghost use Rattle.bearings.specs.Fractions.{holds};
ghost use Rattle.rulebook.specs.Cases.{load};
ghost use Rattle.std.specs.Prelude.{◌≡◌, ◌*◌, ◌≤◌, ℕ, Bool};

use super::{Admitted, Axis, Elastomeric, Plan};

// What the articles of several books compare.
impl<I: Elastomeric> Admitted<I> {
    // G times the top of AS.
    pub fn resistance(&self) -> u64
        ensures is { result ≡ I.modulus self.now.item * self.now.form.shape_area.top }
        ensures high_bound { result ≤ 32716800000 }
    {
        self.item.modulus() as u64 * self.form.shape_area.top
    }

    // The whole load times the bottom of AS.
    pub fn shaped_load(&self) -> u64
        ensures is { result ≡ load self.now.case * self.now.form.shape_area.bottom }
        ensures high_bound { result ≤ 86784000000 }
    {
        self.case.load() * self.form.shape_area.bottom
    }

    // G times the top of AS times θB².
    pub fn turned_resistance(&self, axis: Axis) -> u64
        ensures is { result ≡ I.modulus self.now.item * self.now.form.shape_area.top * (axis.angle * (axis.base * axis.base)) }
        ensures high_bound { result ≤ 104693760000000000 }
    {
        let base = axis.base as u64;
        self.resistance() * (axis.angle as u64 * (base * base))
    }

    // T ≤ most, in psi.
    pub fn stress_holds(&self, most: u16) -> bool
        ensures { result ≡ holds (stress_in_psi (I.plan self.now.item) (load self.now.case) most) }
    {
        self.case.load() * self.form.area.bottom <= most as u64 * self.form.area.top
    }

    // The stress of a load, in pounds, is at most a factor, in hundredths, times GS.
    pub fn load_holds(&self, pounds: u32, factor: u16) -> bool
        ensures { result ≡ holds (stress_in_hundredths (I.plan self.now.item) (I.thickness self.now.item) (I.modulus self.now.item) pounds factor) }
    {
        100 * (pounds as u64 * self.form.shape_area.bottom) <= factor as u64 * self.resistance()
    }

    // A height of rubber, in sixteenths of an inch, is at least twice the movement.
    pub fn shear_holds(&self, rubber: u32) -> bool
        ensures { result ≡ holds (twice_within self.now.case.movement rubber) }
    {
        8 * self.case.movement as u64 <= 25 * rubber as u64
    }

    // Whether a test holds on each axis on which a rotation is checked.
    pub fn holds_on_axes<F: Fn(Axis) -> bool>(&self, test: F) -> bool
        requires { F.IsAlwaysCallable test }
        ensures { (by : ℕ → ℕ → Bool) → ((x : Axis) (r : Bool) → F.post test x r → r ≡ by x.base x.angle) → result ≡ holds_on_axes by (I.plan self.now.item) self.now.case }
    {
        let case = &self.case;
        match self.item.plan() {
            Plan::Rectangle { length, width } => {
                let along = Axis {
                    base: length,
                    angle: case.rotation_x,
                };
                let across = Axis {
                    base: width,
                    angle: case.rotation_z,
                };
                test(along) & test(across)
            }
            Plan::Circle { diameter } => test(Axis {
                base: diameter,
                angle: case.rotation_x.max(case.rotation_z),
            }),
        }
    }
}
