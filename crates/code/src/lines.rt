// What lines sum.
ghost use Rattle.std.specs.Prelude.{◌≡◌, ℕ, true, [], IfOk, if◌then◌else◌};
ghost use Rattle.code.specs.Widths.{is_line, is_place};
ghost use Rattle.code.specs.Code.{Blocks, butterfly};
ghost use Rattle.code.specs.Neighbours.{published};
ghost use Rattle.code.specs.Lines.{takes, holds, among, lines_of, places_of, sum_of};
ghost use Rattle.code.specs.Numbered.{numbers};

use crate::neighbours::is_right;
use crate::places::{Line, Row};
use crate::widths::rows_of;
use std::alloc::{AllocError, Global};

// Whether the line that meets the data column `through` in this row takes the block of `column` there.
#[tactic(auto, unfolding(crate::specs::Lines::takes))]
pub fn is_taken(k: u32, row: Row, through: u32, column: u32) -> bool
    ensures { result ≡ takes (published k) row.0 through column }
{
    through == column || (row.is_dark(through) && is_right(k, through, column))
}

// Whether width k has this line.
fn is_line(k: u32, line: Line) -> bool
    ensures { result ≡ is_line k line.0 }
{
    line.0 < rows_of(k)
}

// Whether width k has this place.
fn is_place(k: u32, row: Row, column: u32) -> bool
    ensures { result ≡ is_place k row.0 column }
{
    row.0 < rows_of(k) && column < k
}

// The places that a line sums, each a row and a column; none where width k has no such line.
pub fn places_of(heap: Global, k: u32, line: Line) -> Result<Vec<(u32, u32)>, AllocError>
    ensures listed { IfOk result (λ v. v.items ≡ (if is_line k line.0 then places_of k (published k) line.0 else [])) }
    ensures summed { IfOk result (λ v. is_line k line.0 ≡ true → (D : Blocks) → butterfly k (published k) D line.0 ≡ sum_of D v.items) }
{
    if !is_line(k, line) {
        return Ok(Vec::new(heap));
    }
    let mut places = Vec::new(heap);
    // no chains, here and in `lines_of`: through `filter` they take a third to a half more instructions
    for through in 0..k {
        let row = line.meeting(through);
        for column in 0..k {
            if is_taken(k, row, through, column) {
                places.push((row.0, column))?;
            }
        }
    }
    Ok(places)
}

// The lines whose sums hold the place in this row of a data column; none where width k has no such place.
pub fn lines_of(heap: Global, k: u32, row: Row, column: u32) -> Result<Vec<Line>, AllocError>
    ensures listed { IfOk result (λ v. numbers v.items ≡ (if is_place k row.0 column then lines_of k (published k) row.0 column else [])) }
    ensures holding { IfOk result (λ v. is_place k row.0 column ≡ true → (n : ℕ) → holds k (published k) n row.0 column ≡ among n (numbers v.items)) }
{
    if !is_place(k, row, column) {
        return Ok(Vec::new(heap));
    }
    let mut lines = Vec::new(heap);
    for through in 0..k {
        if is_taken(k, row, through, column) {
            lines.push(row.line(through))?;
        }
    }
    Ok(lines)
}

// Facts of the code against tables written by hand.
#[cfg(test)]
mod tests {
    use super::*;
    use std::test::Fail;

    #[test]
    fn lines_sum_the_places_of_the_tables(rt: HostRuntime) -> Result<(), Fail> {
        let heap = rt.alloc();
        assert_eq!(rt;
            places_of(heap, 5, Line(0))?.as_slice(),
            [(0, 0), (0, 3), (0, 4), (1, 1), (3, 2), (7, 3), (15, 4)].as_slice()
        );
        assert_eq!(rt;
            places_of(heap, 5, Line(6))?.as_slice(),
            [
                (6, 0),
                (6, 3),
                (6, 4),
                (7, 0),
                (7, 1),
                (7, 4),
                (5, 2),
                (1, 1),
                (1, 2),
                (1, 3),
                (9, 4),
            ]
            .as_slice()
        );
        assert_eq!(rt;
            places_of(heap, 7, Line(63))?.as_slice(),
            [
                (63, 0),
                (62, 1),
                (60, 2),
                (56, 3),
                (48, 4),
                (32, 5),
                (0, 3),
                (0, 4),
                (0, 5),
                (0, 6),
            ]
            .as_slice()
        );
        assert_eq!(rt;
            lines_of(heap, 3, Row(0), 0)?.as_slice(),
            [Line(0), Line(1)].as_slice()
        );
        assert_eq!(rt; places_of(heap, 4, Line(0))?.len(), 0);
        assert_eq!(rt; places_of(heap, 3, Line(4))?.len(), 0);
        Ok(())
    }

    #[test]
    fn half_of_the_rows_are_dark(rt: HostRuntime) {
        for k in [3u32, 5, 7, 9, 11] {
            for column in 0..k {
                let dark = (0..rows_of(k))
                    .filter(|&row| Row(row).is_dark(column))
                    .count();
                assert_eq!(rt; dark, (rows_of(k) / 2) as usize);
            }
        }
    }
}
