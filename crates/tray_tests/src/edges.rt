// The makes at the edges of their limits, each refusal with its fields, and trays made of trays.
#[cfg(test)]
mod tests {
    use crate::keeping::stamp;
    use cabinet::cabinets::Cabinet;
    use std::process::Abort;
    use std::test::Fail;
    use tray::fault::{Fault, Refusal};
    use tray::flat::Flat;
    use tray::lent::Lent;
    use tray::split::Split;
    use tray::trays::{Shape, Tray};

    // The block of one byte at a place.
    fn byte_at<T: Tray>(tray: &mut T, column: u32, row: u32) -> Result<u8, Fault> {
        let mut block = [0u8; 1];
        tray.read(column, row, &mut block)?;
        Ok(block[0])
    }

    // A read and a write with `len` bytes are refused with this fault, and leave the buffer.
    fn refused<T: Tray>(
        rt: &impl Abort,
        tray: &mut T,
        column: u32,
        row: u32,
        len: usize,
        fault: Fault,
    ) {
        let mut buffer = [9u8; 3];
        assert!(rt; len <= 3);
        assert_eq!(rt; tray.read(column, row, &mut buffer[..len]), Err(fault));
        assert_eq!(rt; tray.write(column, row, &buffer[..len]), Err(fault));
        assert_eq!(rt; buffer, [9, 9, 9]);
    }

    #[test]
    fn numbers(rt: HostRuntime) {
        let numbered = [
            (1, Refusal::ColumnTooHigh),
            (2, Refusal::RowTooHigh),
            (3, Refusal::WrongBuffer),
            (4, Refusal::ShortWork),
            (5, Refusal::OutsideLimits),
            (6, Refusal::UnknownCommand),
            (7, Refusal::ScriptEnds),
            (8, Refusal::NoSuchEntry),
            (9, Refusal::ShortLine),
            (11, Refusal::ShapeDiffers),
            (12, Refusal::AlreadyOut),
            (13, Refusal::NotOut),
            (14, Refusal::TwoOut),
            (15, Refusal::Silent),
            (16, Refusal::ColumnOut),
            (17, Refusal::OutOfOrder),
        ];
        for (number, refusal) in numbered {
            assert_eq!(rt; refusal.number(), number);
        }
    }

    // Shapes at and past the limits, the bytes that the memory has, and whether the tray has that shape
    // or is empty.
    #[test]
    fn limits(rt: HostRuntime) -> Result<(), Fail> {
        let mut memory = vec![in rt.alloc(); 0u8; 13 * 1024 * 512]?;
        let cases = [
            (Shape::new(13, 1024, 512), 13 * 1024 * 512, true),
            (Shape::new(13, 1024, 512), 13 * 1024 * 512 - 1, false),
            (Shape::new(13, 1, 1), 13, true),
            (Shape::new(13, 1, 1), 12, false),
            (Shape::new(14, 1, 1), 1000, false),
            (Shape::new(1, 1024, 1), 1024, true),
            (Shape::new(1, 1025, 1), 2000, false),
            (Shape::new(1, 1, 512), 512, true),
            (Shape::new(1, 1, 513), 2000, false),
            (Shape::new(0, 0, 0), 0, true),
            (Shape::new(3, 0, 5), 0, true),
            (Shape::new(3, 4, 0), 0, true),
            (Shape::new(0, 1024, 512), 0, true),
            (Shape::new(0, 1025, 1), 0, false),
        ];
        for (shape, len, fits) in cases {
            assert!(rt; len <= memory.len());
            let tray = Flat::new(shape, &mut memory[..len]);
            let expected = if fits { shape } else { Shape::EMPTY };
            assert_eq!(rt; tray.shape(), expected);
        }
        Ok(())
    }

    // Each case is wrong in all that is looked at after its own check, so the order of the checks shows.
    #[test]
    fn refusals(rt: HostRuntime) -> Result<(), Fail> {
        let mut memory = [7u8; 24];
        let mut tray = Flat::new(Shape::new(3, 4, 2), &mut memory);
        tray.switch(1, false)?;
        let cases = [
            (
                3,
                4,
                1,
                Fault::tray(Refusal::ColumnTooHigh, Some(3), Some(4)),
            ),
            (1, 4, 1, Fault::tray(Refusal::RowTooHigh, Some(1), Some(4))),
            (1, 3, 1, Fault::tray(Refusal::WrongBuffer, Some(1), Some(3))),
            (1, 3, 3, Fault::tray(Refusal::WrongBuffer, Some(1), Some(3))),
            (1, 3, 2, Fault::silent(1)),
        ];
        for (column, row, len, fault) in cases {
            refused(&rt, &mut tray, column, row, len, fault);
        }
        assert_eq!(rt; tray.tally(1), Ok(0));
        assert_eq!(rt; tray.answers(1), Ok(false));
        let unknown = Fault::tray(Refusal::ColumnTooHigh, Some(3), None);
        assert_eq!(rt; tray.answers(3), Err(unknown));
        assert_eq!(rt; tray.tally(3), Err(unknown));
        assert_eq!(rt; tray.switch(3, true), Err(unknown));
        Ok(())
    }

    // A switched flag, counted reads, and the memory once the tray has ended.
    #[test]
    fn reads_and_writes(rt: HostRuntime) -> Result<(), Fail> {
        let mut memory = [0u8; 6];
        {
            let mut tray = Flat::new(Shape::new(2, 3, 1), &mut memory);
            tray.write(1, 2, &[5])?;
            for _ in 0..3 {
                assert_eq!(rt; byte_at(&mut tray, 1, 2), Ok(5));
            }
            assert_eq!(rt; tray.tally(1), Ok(3));
            assert_eq!(rt; tray.tally(0), Ok(0));
            tray.switch(0, false)?;
            assert_eq!(rt; byte_at(&mut tray, 0, 0), Err(Fault::silent(0)));
            tray.switch(0, true)?;
            assert_eq!(rt; byte_at(&mut tray, 0, 0), Ok(0));
        }
        stamp(Shape::new(2, 3, 1), &mut memory, 0, 1, &[8])?;
        assert_eq!(rt; memory, [0, 8, 0, 0, 0, 5]);
        Ok(())
    }

    // Columns 0 and 1 are a flat tray's, 2 a cabinet's, 3 and 4 another flat tray's; 1 and 4 are silent.
    #[test]
    fn split_of_a_split(rt: HostRuntime) -> Result<(), Fail> {
        let mut first = [0u8; 8];
        let mut last = [0u8; 8];
        let mut left = Flat::new(Shape::new(2, 4, 1), &mut first);
        left.switch(1, false)?;
        let middle = Cabinet::new(rt.alloc(), Shape::new(1, 4, 1))?;
        let mut right = Flat::new(Shape::new(2, 4, 1), &mut last);
        right.switch(1, false)?;
        let mut tray = Split::new(Split::new(left, middle), right);
        assert_eq!(rt; tray.shape().columns, 5);
        for column in 0..5u8 {
            let at = u32::from(column);
            let answers = column != 1 && column != 4;
            let answer = if answers {
                Ok(())
            } else {
                Err(Fault::silent(at))
            };
            assert_eq!(rt; tray.write(at, 3, &[column]), answer);
            assert_eq!(rt; tray.answers(at), Ok(answers));
            if answers {
                assert_eq!(rt; byte_at(&mut tray, at, 3), Ok(column));
                assert_eq!(rt; tray.tally(at), Ok(1));
            }
        }
        Ok(())
    }

    #[test]
    fn faults_of_a_split(rt: HostRuntime) -> Result<(), Fail> {
        let left = Cabinet::new(rt.alloc(), Shape::new(2, 4, 1))?;
        let right = Cabinet::new(rt.alloc(), Shape::new(3, 4, 1))?;
        let mut tray = Split::new(left, right);
        let cases = [
            (
                5,
                4,
                2,
                Fault::tray(Refusal::ColumnTooHigh, Some(5), Some(4)),
            ),
            (4, 4, 2, Fault::tray(Refusal::RowTooHigh, Some(4), Some(4))),
            (4, 3, 2, Fault::tray(Refusal::WrongBuffer, Some(4), Some(3))),
            (0, 4, 2, Fault::tray(Refusal::RowTooHigh, Some(0), Some(4))),
        ];
        for (column, row, len, fault) in cases {
            refused(&rt, &mut tray, column, row, len, fault);
        }
        assert_eq!(rt;
            tray.tally(5),
            Err(Fault::tray(Refusal::ColumnTooHigh, Some(5), None))
        );
        assert_eq!(rt;
            tray.answers(5),
            Err(Fault::tray(Refusal::ColumnTooHigh, Some(5), None))
        );
        Ok(())
    }

    // The shapes of two halves, and the columns of the split tray that they make, if they make one.
    #[test]
    fn halves_that_match(rt: HostRuntime) -> Result<(), Fail> {
        let cases = [
            (Shape::new(6, 4, 2), Shape::new(7, 4, 2), Some(13)),
            (Shape::new(6, 4, 2), Shape::new(8, 4, 2), None),
            (Shape::new(14, 4, 2), Shape::new(0, 4, 2), None),
            (Shape::new(0, 4, 2), Shape::new(13, 4, 2), Some(13)),
            (Shape::new(2, 4, 2), Shape::new(2, 5, 2), None),
            (Shape::new(2, 4, 2), Shape::new(2, 4, 3), None),
            (Shape::new(0, 0, 0), Shape::new(0, 0, 0), None),
        ];
        for (left, right, columns) in cases {
            let halves = Split::new(
                Cabinet::new(rt.alloc(), left)?,
                Cabinet::new(rt.alloc(), right)?,
            );
            let expected = columns.map_or(Shape::EMPTY, |columns| Shape { columns, ..left });
            assert_eq!(rt; halves.shape(), expected);
        }
        Ok(())
    }

    #[test]
    fn lent_and_kept(rt: HostRuntime) -> Result<(), Fail> {
        let mut memory = [0u8; 6];
        let mut kept = Flat::new(Shape::new(2, 3, 1), &mut memory);
        {
            let other = Cabinet::new(rt.alloc(), Shape::new(1, 3, 1))?;
            let mut tray = Split::new(other, Lent::new(&mut kept));
            tray.write(2, 1, &[6])?;
            assert_eq!(rt; byte_at(&mut tray, 2, 1), Ok(6));
        }
        assert_eq!(rt; kept.tally(1), Ok(1));
        assert_eq!(rt; byte_at(&mut kept, 1, 1), Ok(6));
        Ok(())
    }
}
