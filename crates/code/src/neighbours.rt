// The published rule of right neighbours.
ghost use Rattle.std.specs.Prelude.{◌≡◌, ◌<◌};
ghost use Rattle.code.specs.Neighbours.{distance, published};

// How far `other` lies before `column`, going round the k columns.
#[tactic(auto, using(crate::proofs::Published::ahead, crate::proofs::Published::behind))]
fn distance_before(k: u32, column: u32, other: u32) -> u32
    requires column { column < k }
    requires other { other < k }
    ensures { result ≡ distance k column other }
{
    if other <= column {
        column - other
    } else {
        column + (k - other)
    }
}

// Whether `other` is a right neighbour of `column` at width k. Numbers that are no data columns have none and are none.
#[tactic(auto, unfolding(crate::specs::Neighbours::published, crate::specs::Neighbours::near))]
pub fn is_right(k: u32, column: u32, other: u32) -> bool
    ensures { result ≡ published k column other }
{
    column < k && other < k && (1..=(k - 1) / 2).contains(&distance_before(k, column, other))
}
