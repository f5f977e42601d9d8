// The limits of a shelf, and what stands in its parities.
#[cfg(test)]
mod tests {
    use shelf::roster::Roster;
    use std::test::Fail;
    use tray::fault::{Fault, Refusal};
    use tray::flat::Flat;
    use tray::trays::{Shape, Tray};

    // Lays a shelf of width k out on a tray of this shape, with the tray's block size.
    fn lay_out(k: u32, shape: Shape, memory: &mut [u8]) -> Result<(), Fault> {
        let _ = Roster::layout(&mut Flat::new(shape, memory), k, shape.size)?;
        Ok(())
    }

    #[test]
    fn widths_and_sizes_have_limits(rt: HostRuntime) -> Result<(), Fail> {
        let mut memory = vec![in rt.alloc(); 0u8; 13 * 1024 * 512]?;
        let outside = Err(Fault::shelf(Refusal::OutsideLimits, None, None));
        let differs = Err(Fault::shelf(Refusal::ShapeDiffers, None, None));
        let cases = [
            (11, Shape::new(13, 1024, 512), Ok(())),
            (3, Shape::new(5, 4, 1), Ok(())),
            (0, Shape::new(5, 4, 1), outside),
            (1, Shape::new(5, 4, 1), outside),
            (2, Shape::new(5, 4, 1), outside),
            (4, Shape::new(5, 4, 1), outside),
            (12, Shape::new(5, 4, 1), outside),
            (13, Shape::new(5, 4, 1), outside),
            (3, Shape::new(5, 4, 0), outside),
            (3, Shape::new(5, 4, 513), outside),
            (3, Shape::new(6, 4, 1), differs),
            (3, Shape::new(5, 8, 1), differs),
        ];
        for (k, shape, outcome) in cases {
            assert_eq!(rt;
                lay_out(k, shape, &mut memory),
                outcome,
                "width {k} on {shape:?}"
            );
        }
        Ok(())
    }

    fn byte_at<T: Tray>(tray: &mut T, column: u32, row: u32) -> Result<u8, Fault> {
        let mut block = [0u8; 1];
        tray.read(column, row, &mut block)?;
        Ok(block[0])
    }

    // The columns of the worked stripe, and the parities that come of them.
    const DATA: [[u8; 4]; 3] = [
        [0x01, 0x02, 0x04, 0x08],
        [0x10, 0x20, 0x40, 0x80],
        [0x03, 0x05, 0x09, 0x11],
    ];

    const PARITIES: [[u8; 4]; 2] = [[0x12, 0x27, 0x4d, 0x99], [0x33, 0x1a, 0xa0, 0x5b]];

    // Puts the worked stripe on a fresh shelf.
    fn put_stripe<T: Tray>(tray: &mut T, work: &mut [u8]) -> Result<Roster, Fault> {
        let roster = Roster::layout(tray, 3, 1)?;
        for (column, blocks) in (0u32..).zip(DATA) {
            for (row, block) in (0u32..).zip(blocks) {
                roster.put(tray, column, row, &[block], work)?;
            }
        }
        Ok(roster)
    }

    #[test]
    fn the_worked_stripe_has_its_parities(rt: HostRuntime) -> Result<(), Fail> {
        let mut memory = [0u8; 20];
        let mut work = [0u8; 8];
        let mut tray = Flat::new(Shape::new(5, 4, 1), &mut memory);
        put_stripe(&mut tray, &mut work)?;
        for (column, blocks) in (3u32..).zip(PARITIES) {
            for (row, block) in (0u32..).zip(blocks) {
                assert_eq!(rt; byte_at(&mut tray, column, row)?, block);
            }
        }
        Ok(())
    }

    // Bytes that are written over one after another, and the place that a sweep then finds.
    #[test]
    fn a_sweep_finds_the_first_place_that_does_not_fit(rt: HostRuntime) -> Result<(), Fail> {
        let mut memory = [0u8; 20];
        let mut work = [0u8; 8];
        let mut tray = Flat::new(Shape::new(5, 4, 1), &mut memory);
        let roster = put_stripe(&mut tray, &mut work)?;
        let cases = [
            (4, 2, (4, 2)),
            (4, 1, (4, 1)),
            (3, 3, (3, 3)),
            (0, 2, (3, 2)),
        ];
        for (column, row, found) in cases {
            tray.write(column, row, &[0xff])?;
            assert_eq!(rt;
                roster.sweep(&mut tray, &mut work)?,
                Some(found),
                "after ({column}, {row})"
            );
        }
        Ok(())
    }
}
