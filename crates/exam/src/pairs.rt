// Every pair of columns out, at widths 3 and 5, on a flat tray, on a split tray and on a cabinet.
#[cfg(test)]
mod tests {
    use crate::rounds::tests::{Rig, SHAPE_3, SHAPE_5, same};
    use cabinet::cabinets::Cabinet;
    use code::widths::rows_of;
    use shelf::roster::Roster;
    use std::test::Fail;
    use tray::flat::Flat;
    use tray::split::Split;
    use tray::trays::{Shape, Tray};

    // Puts, loses two columns, reads and puts on, rebuilds them, and sweeps.
    fn round_trip<T: Tray>(
        tray: &mut T,
        k: u32,
        a: u32,
        b: u32,
        work: &mut [u8],
    ) -> Result<(), Fail> {
        let mut rig = Rig {
            roster: Roster::layout(tray, k, 2)?,
            tray,
            k,
            work,
        };
        rig.fill(1, |_| true)?;
        rig.pull(a)?;
        rig.pull(b)?;
        rig.holds(|_| 1)?;
        rig.fill(2, |_| true)?;
        rig.holds(|_| 2)?;
        same("reads", rig.rebuild(a)?, k.wrapping_mul(rows_of(k)))?;
        rig.holds(|_| 2)?;
        rig.rebuild(b)?;
        rig.holds(|_| 2)?;
        same("sweep", rig.sweep()?, None)
    }

    fn all_pairs<T: Tray>(tray: &mut T, k: u32, work: &mut [u8]) -> Result<(), Fail> {
        for a in 0..k.saturating_add(2) {
            for b in 0..a {
                round_trip(tray, k, a, b, work)?;
            }
        }
        Ok(())
    }

    #[test]
    fn every_pair_comes_back_on_a_flat_tray() -> Result<(), Fail> {
        let mut work = [0u8; 64];
        let mut memory = [0u8; 224];
        all_pairs(&mut Flat::new(SHAPE_3, &mut memory), 3, &mut work)?;
        all_pairs(&mut Flat::new(SHAPE_5, &mut memory), 5, &mut work)
    }

    #[test]
    fn every_pair_comes_back_on_other_trays(rt: HostRuntime) -> Result<(), Fail> {
        let mut work = [0u8; 64];
        let mut left = [0u8; 96];
        let mut right = [0u8; 128];
        let mut split = Split::new(
            Flat::new(Shape::new(3, 16, 2), &mut left),
            Flat::new(Shape::new(4, 16, 2), &mut right),
        );
        all_pairs(&mut split, 5, &mut work)?;
        let mut cabinet = Cabinet::new(rt.alloc(), SHAPE_3)?;
        all_pairs(&mut cabinet, 3, &mut work)
    }
}
