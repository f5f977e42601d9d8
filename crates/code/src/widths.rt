// Widths: how many data columns a shelf may have, and how many rows its columns have.
ghost use Rattle.std.specs.Prelude.{◌≡◌, ◌≤◌, true, if◌then◌else◌, IfSome, IsSome, ◌↔◌};
ghost use Rattle.code.specs.Code.{rows};
ghost use Rattle.code.specs.Widths.{is_width};

pub const LEAST_WIDTH: u32 = 3;

pub const MOST_WIDTH: u32 = 11;

// Whether a shelf may have k data columns.
#[tactic(auto, unfolding(crate::specs::Widths::is_width))]
pub fn is_width(k: u32) -> bool
    ensures { result ≡ is_width k }
{
    (LEAST_WIDTH..=MOST_WIDTH).contains(&k) && k % 2 == 1
}

// The rows of each column at width k, which are also its lines; 0 where no shelf has that width.
#[tactic(auto, unfolding(crate::specs::Widths::is_width, crate::specs::Code::rows))]
pub fn rows_of(k: u32) -> u32
    ensures { result ≡ (if is_width k then rows k else 0) }
{
    if is_width(k) { 1 << (k - 1) } else { 0 }
}

// A width that a shelf may have, by the number of its data columns.
#[derive(Clone, Copy, PartialEq, Eq, Debug)]
pub struct Width {
    pub number: u32,
    ghost valid: { is_width number ≡ true },
    ghost low: { 3 ≤ number },
    ghost high: { number ≤ 11 },
}

impl Width {
    // The width of k data columns, if a shelf may have that many.
    #[tactic(auto, using(crate::proofs::Limits::low_width, crate::proofs::Limits::high_width))]
    pub fn new(k: u32) -> Option<Width>
        ensures given { IsSome result ↔ (is_width k ≡ true) }
        ensures value { IfSome result (λ w. w.number ≡ k) }
    {
        if is_width(k) {
            Some(Width { number: k })
        } else {
            None
        }
    }

    // The rows of each column, which are also its lines.
    #[tactic(auto, using(crate::proofs::Limits::few_rows), unfolding(crate::specs::Code::rows))]
    pub fn rows(self) -> u32
        ensures value { result ≡ rows self.number }
        ensures few { result ≤ 1024 }
    {
        1 << (self.number - 1)
    }
}
