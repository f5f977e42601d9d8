// What no script can reach: a short line buffer, a damaged column, and a tray of another shape.
#[cfg(test)]
mod tests {
    use lab::run::LEAST_LINE;
    use lab::shelf_lab::Lab;
    use std::test::Fail;
    use tray::fault::{Fault, Refusal};
    use tray::trays::{Shape, Tray};

    #[test]
    fn short_line(rt: HostRuntime) -> Result<(), Fail> {
        let mut memory = [0u8; 20];
        let mut line = [7u8; LEAST_LINE - 1];
        let mut lab = Lab::new(&mut memory);
        let script = b"L\x03\x00\x01";
        let told = lab.run(script, b"", &mut [], &mut line);
        assert_eq!(rt; told, Err(Fault::script(Refusal::ShortLine)));
        assert_eq!(rt; line[0], 7);
        assert!(rt; lab.roster.is_none());
        Ok(())
    }

    #[test]
    fn damage(rt: HostRuntime) -> Result<(), Fail> {
        let mut memory = [0u8; 20];
        let mut work = [0u8; 8];
        let mut line = [0u8; LEAST_LINE];
        let mut lab = Lab::new(&mut memory);
        let step = lab.run(b"L\x03\x00\x01SSG\x00\x00\x00", b"", &mut work, &mut line)?;
        lab.tray.write(4, 2, &[1])?;
        let step = lab.run(step.rest, b"", &mut work, &mut line)?;
        assert!(rt; line.starts_with(b"S 4 2\n") && step.len == 6);
        lab.tray.write(3, 1, &[1])?;
        let step = lab.run(step.rest, b"", &mut work, &mut line)?;
        assert!(rt; line.starts_with(b"S 3 1\n") && step.len == 6);
        lab.tray.renew(Shape::new(5, 4, 2));
        let step = lab.run(step.rest, b"", &mut work, &mut line)?;
        assert!(rt; line.starts_with(b"G no 11 shelf 0 0\n") && step.len == 18);
        assert!(rt; step.rest.is_empty());
        Ok(())
    }
}
