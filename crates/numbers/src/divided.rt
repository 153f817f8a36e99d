// Divisions by the number of parts of a tuple or a union.
ghost use Rattle.std.specs.Prelude.{◌≡◌, ◌/◌, ◌≤◌};

// A division by a constant is a product, which is quicker than one by a variable.
pub fn divided(x: u64, t: usize) -> u64
    requires { (3 ≤ t) × (t ≤ 8) }
    ensures { result ≡ x / t }
{
    match t {
        3 => x / 3,
        4 => x / 4,
        5 => x / 5,
        6 => x / 6,
        7 => x / 7,
        _ => x / 8,
    }
}
