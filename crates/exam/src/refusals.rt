// Each refusal of each call, with what its fault holds.
#[cfg(test)]
mod tests {
    use shelf::roster::Roster;
    use std::test::Fail;
    use tray::fault::{Fault, Refusal};
    use tray::flat::Flat;
    use tray::trays::Shape;

    fn told(refusal: Refusal, column: u32, row: Option<u32>) -> Fault {
        Fault::shelf(refusal, Some(column), row)
    }

    #[test]
    fn pulls_and_drills(rt: HostRuntime) -> Result<(), Fail> {
        let mut memory = [0u8; 20];
        let mut roster = Roster::layout(&mut Flat::new(Shape::new(5, 4, 1), &mut memory), 3, 1)?;
        assert_eq!(rt; roster.pull(5), Err(told(Refusal::ColumnTooHigh, 5, None)));
        roster.pull(1)?;
        assert_eq!(rt; roster.pull(1), Err(told(Refusal::AlreadyOut, 1, None)));
        assert_eq!(rt;
            roster.drill(1).taken(),
            Err(told(Refusal::AlreadyOut, 1, None))
        );
        assert_eq!(rt; roster.drill(4).taken(), Ok(()));
        roster.pull(4)?;
        assert_eq!(rt; roster.pull(0), Err(told(Refusal::TwoOut, 0, None)));
        assert_eq!(rt;
            roster.drill(0).taken(),
            Err(told(Refusal::TwoOut, 0, None))
        );
        assert_eq!(rt;
            roster.drill(5).taken(),
            Err(told(Refusal::ColumnTooHigh, 5, None))
        );
        Ok(())
    }

    #[test]
    fn gets(rt: HostRuntime) -> Result<(), Fail> {
        let mut memory = [0u8; 40];
        let mut other = [0u8; 20];
        let mut work = [0u8; 16];
        let mut tray = Flat::new(Shape::new(5, 4, 2), &mut memory);
        let mut block = [7u8; 2];
        let roster = Roster::layout(&mut tray, 3, 2)?;
        let mut wrong = Flat::new(Shape::new(5, 4, 1), &mut other);
        assert_eq!(rt;
            roster.get(&mut wrong, 9, 9, &mut block, &mut work),
            Err(told(Refusal::ShapeDiffers, 9, Some(9)))
        );
        assert_eq!(rt;
            roster.get(&mut tray, 3, 9, &mut block, &mut work),
            Err(told(Refusal::ColumnTooHigh, 3, Some(9)))
        );
        assert_eq!(rt;
            roster.get(&mut tray, 2, 4, &mut block, &mut work),
            Err(told(Refusal::RowTooHigh, 2, Some(4)))
        );
        assert_eq!(rt;
            roster.get(&mut tray, 2, 3, &mut [0], &mut [0]),
            Err(told(Refusal::WrongBuffer, 2, Some(3)))
        );
        assert_eq!(rt; block, [7, 7]);
        Ok(())
    }

    #[test]
    fn puts(rt: HostRuntime) -> Result<(), Fail> {
        let mut memory = [0u8; 40];
        let mut work = [0u8; 16];
        let mut tray = Flat::new(Shape::new(5, 4, 2), &mut memory);
        let roster = Roster::layout(&mut tray, 3, 2)?;
        assert_eq!(rt;
            roster.put(&mut tray, 2, 3, &[1, 2], &mut [0; 15]),
            Err(told(Refusal::ShortWork, 2, Some(3)))
        );
        tray.switch(4, false)?;
        tray.switch(1, false)?;
        assert_eq!(rt;
            roster.put(&mut tray, 2, 3, &[1, 2], &mut work),
            Err(Fault::silent(1))
        );
        tray.switch(1, true)?;
        tray.switch(4, true)?;
        assert_eq!(rt; roster.put(&mut tray, 2, 3, &[1, 2], &mut work), Ok(()));
        Ok(())
    }

    #[test]
    fn rebuilds_and_sweeps(rt: HostRuntime) -> Result<(), Fail> {
        let mut memory = [0u8; 20];
        let mut other = [0u8; 40];
        let mut work = [0u8; 8];
        let mut tray = Flat::new(Shape::new(5, 4, 1), &mut memory);
        let mut roster = Roster::layout(&mut tray, 3, 1)?;
        let mut wrong = Flat::new(Shape::new(5, 4, 2), &mut other);
        assert_eq!(rt;
            roster.rebuild(&mut wrong, 5, &mut work),
            Err(told(Refusal::ShapeDiffers, 5, None))
        );
        assert_eq!(rt;
            roster.rebuild(&mut tray, 5, &mut [0]),
            Err(told(Refusal::ColumnTooHigh, 5, None))
        );
        assert_eq!(rt;
            roster.rebuild(&mut tray, 4, &mut [0; 7]),
            Err(told(Refusal::ShortWork, 4, None))
        );
        assert_eq!(rt;
            roster.rebuild(&mut tray, 4, &mut work),
            Err(told(Refusal::NotOut, 4, None))
        );
        assert_eq!(rt;
            roster.sweep(&mut tray, &mut [0; 7]),
            Err(Fault::shelf(Refusal::ShortWork, None, None))
        );
        roster.pull(1)?;
        assert_eq!(rt;
            roster.sweep(&mut tray, &mut work),
            Err(Fault::shelf(Refusal::ColumnOut, None, None))
        );
        tray.switch(1, false)?;
        assert_eq!(rt;
            roster.rebuild(&mut tray, 1, &mut work),
            Err(Fault::silent(1))
        );
        tray.switch(1, true)?;
        assert_eq!(rt; roster.rebuild(&mut tray, 1, &mut work)?, 8);
        assert_eq!(rt; roster.sweep(&mut tray, &mut work)?, None);
        Ok(())
    }
}
