// Days and acts on examples: good lines, each kind of bad line, texts there and back, and the acts.
#[cfg(test)]
mod tests {
    use days::{Fault, Line, print_act, print_text, read_day, read_line, read_text};
    use meaning::Told;
    use std::test::Fail;

    #[test]
    fn texts(rt: HostRuntime) -> Result<(), Fail> {
        // As written, what it stands for, and its canonical form.
        let table: [(&[u8], &[u8], &[u8]); 5] = [
            (b"", b"", b""),
            (b"ls -l", b"ls -l", b"ls -l"),
            (
                b"\\e[A\\r\\n\\t",
                b"\x1b[A\r\n\t",
                b"\\x1b[A\\x0d\\x0a\\x09",
            ),
            (b"\\\"a\\\\b\\\"", b"\"a\\b\"", b"\\\"a\\\\b\\\""),
            (
                b"\\xC3\\xa4\\x41\\x7f",
                b"\xc3\xa4A\x7f",
                b"\\xc3\\xa4A\\x7f",
            ),
        ];
        for (text, bytes, canonical) in table {
            let read = read_text(rt.alloc(), text)?;
            assert_eq!(rt; read.as_slice(), bytes);
            let mut out = Vec::new(rt.alloc());
            print_text(&mut out, read.as_slice())?;
            assert_eq!(rt; out.as_slice(), canonical);
        }
        Ok(())
    }

    #[test]
    fn bad_lines(rt: HostRuntime) -> Result<(), Fail> {
        let table: [(&[u8], Fault); 18] = [
            (b"loop 1 2", Fault::UnknownWord),
            (b" show", Fault::UnknownWord),
            (b"show ", Fault::UnknownWord),
            (b"look", Fault::UnknownWord),
            (b"look 80", Fault::BadNumber),
            (b"look 80  24", Fault::BadNumber),
            (b"look 80 24 ", Fault::BadNumber),
            (b"look 0 24", Fault::BadSize),
            (b"look 201 24", Fault::BadSize),
            (b"look 80 1", Fault::BadSize),
            (b"look 80 61", Fault::BadSize),
            (b"gone 12345678901", Fault::BadNumber),
            (b"gone -1", Fault::BadNumber),
            (b"keys x", Fault::BadText),
            (b"keys \"", Fault::BadText),
            (b"keys \"a\"b\"", Fault::BadText),
            (b"keys \"a\\\"", Fault::BadText),
            (b"from 1 \"\\x4\"", Fault::BadText),
        ];
        for (line, fault) in table {
            match read_line(rt.alloc(), line) {
                Ok(_) => return Err(Fail::new("a bad line was read")),
                Err(e) => assert_eq!(rt; e, fault),
            }
        }
        Ok(())
    }

    #[test]
    fn long_lines(rt: HostRuntime) -> Result<(), Fail> {
        let mut line = b"from 1 \"".to_vec(rt.alloc())?;
        for _ in 0..4096 {
            line.push(b'a')?;
        }
        line.push(b'"')?;
        match read_line(rt.alloc(), line.as_slice()) {
            Ok(Line::From(1, bytes)) => assert_eq!(rt; bytes.len(), 4096),
            _ => return Err(Fail::new("4096 bytes")),
        }
        let _ = line.pop();
        line.push(b'a')?;
        line.push(b'"')?;
        match read_line(rt.alloc(), line.as_slice()) {
            Ok(_) => Err(Fail::new("4097 bytes")),
            Err(e) => {
                assert_eq!(rt; e, Fault::TooLong);
                Ok(())
            },
        }
    }

    #[test]
    fn good_lines(rt: HostRuntime) -> Result<(), Fail> {
        let heap = rt.alloc();
        assert!(rt; matches!(read_line(heap, b"look 1 60")?, Line::Look(1, 60)));
        assert!(rt; matches!(read_line(heap, b"look 200 2")?, Line::Look(200, 2)));
        assert!(rt; matches!(read_line(heap, b"gone 9999999999")?, Line::Gone(9999999999)));
        assert!(rt; matches!(read_line(heap, b"show")?, Line::Show));
        assert!(rt; matches!(read_line(heap, b" \t ")?, Line::Nothing));
        assert!(rt; matches!(read_line(heap, b"# show")?, Line::Nothing));
        if let Line::From(pane, bytes) = read_line(heap, b"from 7 \"\\e[m\"")? {
            assert_eq!(rt; pane, 7);
            assert_eq!(rt; bytes.as_slice(), b"\x1b[m".as_slice());
            Ok(())
        } else {
            Err(Fail::new("from"))
        }
    }

    #[test]
    fn days(rt: HostRuntime) -> Result<(), Fail> {
        let heap = rt.alloc();
        match read_day(heap, b"look 80 24\n\nkeys \"ls\"\nshow") {
            Ok(day) => assert_eq!(rt; day.len(), 4),
            Err(_) => return Err(Fail::new("a good day")),
        }
        match read_day(heap, b"show\nlook 80 24\n\nlook 0 24\nbad\n") {
            Ok(_) => Err(Fail::new("a bad day")),
            Err(bad) => {
                assert_eq!(rt; bad.line, 4);
                assert_eq!(rt; bad.fault, Fault::BadSize);
                Ok(())
            }
        }
    }

    #[test]
    fn acts(rt: HostRuntime) -> Result<(), Fail> {
        let table: [(Told, &[u8]); 9] = [
            (Told::Start(3 * 65536 + 200 * 256 + 60), b"start 3 200 60\n"),
            (Told::Size(80 * 256 + 24), b"size 0 80 24\n"),
            (
                Told::Send(10000000000 * 65536 + 2),
                b"send 10000000000 \"a\\x1b\"\n",
            ),
            (Told::Write(9), b"write \"a\\x1b\\\"\"\n"),
            (
                Told::Stop(18446744073709551615),
                b"stop 18446744073709551615\n",
            ),
            (Told::Leave, b"leave\n"),
            (Told::Over, b"over\n"),
            (Told::Wait, b"wait\n"),
            (Told::No(1), b"no 1\n"),
        ];
        for (act, line) in table {
            let mut out = Vec::new(rt.alloc());
            print_act(&mut out, act, b"a\x1b\"")?;
            assert_eq!(rt; out.as_slice(), line);
        }
        Ok(())
    }
}
