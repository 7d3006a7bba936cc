ghost use Rattle.bearings.specs.Bounds.{Limited};
ghost use Rattle.bearings.specs.declared.bearing.Plan.{Plan};
ghost use Rattle.std.specs.Prelude.{◌≡◌, ℕ, IfNone, Option};

use super::Plan;

// What a laminated bearing and a plain pad have in common: a plan, layers of one thickness and one rubber.
pub trait Elastomeric: Copy {
    ghost outside: { Self → Option ℕ };

    ghost plan: { Self → Plan };

    ghost thickness: { Self → ℕ };

    ghost modulus: { Self → ℕ };

    // The first field outside its limits, counted from 1.
    fn first_outside(&self) -> Option<u8>
        ensures is { result ≡ outside self.now }
        ensures limited { IfNone result (Limited (plan self.now) (thickness self.now) (modulus self.now)) };

    fn plan(&self) -> Plan
        ensures { result ≡ plan self.now };

    // Of a layer, in sixteenths of an inch.
    fn thickness(&self) -> u8
        ensures { result ≡ thickness self.now };

    // Of the rubber, in psi.
    fn modulus(&self) -> u8
        ensures { result ≡ modulus self.now };
}
