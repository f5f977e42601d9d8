// What ends a script, and its limits.
#[cfg(test)]
mod tests {
    use lab::transcript::transcript;
    use std::test::Fail;

    #[test]
    fn endings(rt: HostRuntime) -> Result<(), Fail> {
        let cases: [(&[u8], &[u8]); 14] = [
            (b"", b""),
            (b"\n", b"? no 6 script - -\n"),
            (b"?L\x03\x00\x01", b"? no 6 script - -\n"),
            (b"S", b"S no 17 script - -\n"),
            (b"P\x00", b"P no 17 script - -\n"),
            (b"L\x03\x00", b"L no 7 script - -\n"),
            (b"L\x01\x00\x01S", b"L no 5 shelf - -\n"),
            (b"L\x04\x00\x01S", b"L no 5 shelf - -\n"),
            (b"L\x0d\x00\x01S", b"L no 5 shelf - -\n"),
            (b"L\x03\x00\x00S", b"L no 5 shelf - -\n"),
            (b"L\x03\x02\x01S", b"L no 5 shelf - -\n"),
            (b"L\x0b\x00\x03S", b"L no 11 shelf - -\n"),
            (b"L\x03\x02\x00S\nS", b"L ok\nS clean\n? no 6 script - -\n"),
            (b"L\x0b\x00\x02SX", b"L ok\nS clean\nX no 7 script - -\n"),
        ];
        for (script, lines) in cases {
            let told = transcript(rt.alloc(), script, b"")?;
            assert_eq!(rt; told.as_slice(), lines);
        }
        Ok(())
    }

    // Behind 16,384 bytes of a script nothing is run, and behind 4,096 of a sheet there is no entry.
    #[test]
    fn limits(rt: HostRuntime) -> Result<(), Fail> {
        let mut script = Vec::new(rt.alloc());
        script.extend_from_slice(b"L\x03\x00\x11Q\x00\x00\x00\xefQ\x00\x00\x00\xf0")?;
        let sheet = vec![in rt.alloc(); 9u8; 5000]?;
        let told = transcript(rt.alloc(), &script, &sheet)?;
        assert_eq!(rt;
            told.as_slice(),
            b"L ok\nQ ok\nQ no 8 script - -\n".as_slice()
        );
        let sweeps = vec![in rt.alloc(); b'S'; 20000]?;
        script.truncate(4);
        script.extend_from_slice(&sweeps)?;
        let told = transcript(rt.alloc(), &script, &sheet)?;
        assert_eq!(rt;
            told.len(),
            b"L ok\n".len() + (16384 - 4) * b"S clean\n".len()
        );
        Ok(())
    }
}
