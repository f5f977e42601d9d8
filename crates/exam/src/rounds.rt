// A shelf under test, what tests put on it, and what they look for.
#[cfg(test)]
pub mod tests {
    use code::widths::rows_of;
    use shelf::roster::Roster;
    use std::fmt::{Debug, Display};
    use std::test::Fail;
    use tray::fault::Fault;
    use tray::trays::{Shape, Tray};

    // The shapes of trays for shelves of width 3 and 5, with blocks of two bytes.
    pub const SHAPE_3: Shape = Shape {
        columns: 5,
        rows: 4,
        size: 2,
    };

    pub const SHAPE_5: Shape = Shape {
        columns: 7,
        rows: 16,
        size: 2,
    };

    // A block that tells its place and the round that it was put in.
    fn mark(round: u32, column: u32, row: u32) -> [u8; 2] {
        let place = round.wrapping_mul(101) ^ column.wrapping_mul(32) ^ row;
        [
            (place & 0xff) as u8,
            (place.wrapping_mul(7).wrapping_add(round) & 0xff) as u8,
        ]
    }

    // Fails unless a test sees what it wants, and tells what it looked at and both values.
    pub fn same<T: PartialEq + Debug + Drop>(
        what: impl Display + Drop,
        seen: T,
        wanted: T,
    ) -> Result<(), Fail> {
        if seen == wanted {
            Ok(())
        } else {
            Err(Fail::new(format_args!("{what}: {seen:?} and not {wanted:?}")))
        }
    }

    // A shelf under test: a roster of width `k`, with the tray and the work space that its calls are lent. It is made where
    // it is used: in a `Result` or an `Option` a struct of a roster and a `&mut` has no rule in the proof yet.
    #[derive(Drop)]
    pub struct Rig<'a, T> {
        pub roster: Roster,
        pub tray: &'a mut T,
        pub k: u32,
        pub work: &'a mut [u8],
    }

    impl<T: Tray> Rig<'_, T> {
        pub fn put(&mut self, column: u32, row: u32, block: &[u8]) -> Result<(), Fault> {
            self.roster.put(self.tray, column, row, block, self.work)
        }

        // Puts the marks of a round to every data column, in the rows that `rows` takes.
        pub fn fill<F: Fn(u32) -> bool>(&mut self, round: u32, rows: F) -> Result<(), Fault>
            requires { F.IsAlwaysCallable rows }
        {
            for column in 0..self.k {
                for row in 0..rows_of(self.k) {
                    if rows(row) {
                        self.put(column, row, &mark(round, column, row))?;
                    }
                }
            }
            Ok(())
        }

        fn block_at(&mut self, column: u32, row: u32) -> Result<[u8; 2], Fault> {
            let mut block = [0u8; 2];
            self.roster
                .get(self.tray, column, row, &mut block, self.work)?;
            Ok(block)
        }

        // Every data block is read back as the mark of the round that `round` gives for its row.
        pub fn holds<F: Fn(u32) -> u32>(&mut self, round: F) -> Result<(), Fail>
            requires { F.IsAlwaysCallable round }
        {
            for column in 0..self.k {
                for row in 0..rows_of(self.k) {
                    let block = self.block_at(column, row)?;
                    same(
                        format_args!("at ({column}, {row})"),
                        block,
                        mark(round(row), column, row),
                    )?;
                }
            }
            Ok(())
        }

        pub fn pull(&mut self, column: u32) -> Result<(), Fault> {
            self.roster.pull(column)
        }

        pub fn rebuild(&mut self, column: u32) -> Result<u32, Fault> {
            self.roster.rebuild(self.tray, column, self.work)
        }

        pub fn sweep(&mut self) -> Result<Option<(u32, u32)>, Fault> {
            self.roster.sweep(self.tray, self.work)
        }
    }
}
