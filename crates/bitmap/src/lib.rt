// Sets of parties as numbers, in which party p has the value two to the p - 1.
#![tactic(auto)]

ghost use Rattle.std.specs.Prelude.{◌≡◌};
ghost use Rattle.bitmap.specs.Bitmap.{names, up_to};

// Whether a map names party p, or the option map of a plan option p.
#[tactic(auto, using(crate::proofs::Maps::shifted))]
pub fn names(map: usize, p: usize) -> bool
    ensures { result ≡ names map p }
{
    let place = p.saturating_sub(1);
    place < 64 && (map >> place) % 2 == 1
}

// Whether a map names no party beyond n.
#[tactic(auto, using(crate::proofs::Maps::shifted))]
pub fn up_to(n: usize, map: usize) -> bool
    ensures { result ≡ up_to n map }
{
    64 <= n || map >> n == 0
}
