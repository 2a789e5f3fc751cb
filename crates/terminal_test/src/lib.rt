#![tactic(auto)]

// The terminal on examples: bytes, and the screen that they leave, written out. Each is worked out from docs/TERMINAL.md.
#[cfg(test)]
mod tests {
    use grid::size::Size;
    use shown::feed::feed_all;
    use shown::show::show;
    use std::process::Abort;
    use std::test::Fail;
    use terminal::state::Terminal;

    // The screen after these bytes is this text.
    fn shows(
        rt: &(impl Abort + AllocGlobal),
        wide: usize,
        high: usize,
        bytes: &[u8],
        text: &[u8],
    ) -> Result<(), Fail> {
        let Some(size) = Size::new(wide, high) else {
            return Err(Fail::new("no such size"));
        };
        let mut cells = vec![in rt.alloc(); 0u64; size.cells()]?;
        let mut out = Vec::new(rt.alloc());
        assert!(rt; show(&mut out, size, cells.as_mut_slice(), bytes).is_ok());
        assert_eq!(rt; out.as_slice(), text);
        Ok(())
    }

    // A screen's columns and rows, the bytes, and the text.
    type Case<'a> = (usize, usize, &'a [u8], &'a [u8]);

    fn all_show(rt: &(impl Abort + AllocGlobal), table: &[Case]) -> Result<(), Fail> {
        for (wide, high, bytes, text) in table {
            shows(rt, *wide, *high, bytes, text)?;
        }
        Ok(())
    }

    // Printing and control characters.
    #[test]
    fn control_characters(rt: HostRuntime) -> Result<(), Fail> {
        let table: &[Case] = &[
            (5, 3, b"abc", b"abc\n\n\ncursor 1 4\n"),
            (5, 3, b"abcdefg", b"abcde\nfg\n\ncursor 2 3\n"),
            (3, 2, b"abcdefghi", b"def\nghi\ncursor 2 3\n"),
            (5, 2, b"abc\x08X\rY", b"YbX\n\ncursor 1 2\n"),
            (5, 2, b"\x08\x08a", b"a\n\ncursor 1 2\n"),
            (20, 1, b"a\tb\tc\td", b"a       b       c  d\ncursor 1 20\n"),
            (6, 4, b"a\nb\x0bc\x0cd", b"a\n b\n  c\n   d\ncursor 4 5\n"),
            (4, 2, b"a\r\nb\r\nc", b"b\nc\ncursor 2 2\n"),
            (5, 1, b"a\x00\x05\x07\x0e\x0f\x7fb", b"ab\ncursor 1 3\n"),
            (5, 1, b"\x80\xffa", b"??a\ncursor 1 4\n"),
            (4, 1, b"a\x1b[7m  ", b"a\ncursor 1 4\n"),
            (1, 2, b"ab", b"a\nb\ncursor 2 1\n"),
            (1, 1, b"ab", b"b\ncursor 1 1\n"),
        ];
        all_show(&rt, table)
    }

    // A pending wrap is ended by what sets the cursor.
    #[test]
    fn wrap_ended(rt: HostRuntime) -> Result<(), Fail> {
        let table: &[Case] = &[
            (3, 2, b"abc\x08X", b"aXc\n\ncursor 1 3\n"),
            (3, 2, b"abc\tX", b"abX\n\ncursor 1 3\n"),
            (3, 2, b"abc\nX", b"abc\n  X\ncursor 2 3\n"),
            (3, 2, b"abc\rX", b"Xbc\n\ncursor 1 2\n"),
            (3, 2, b"abc\x1b7\x1b8X", b"abX\n\ncursor 1 3\n"),
            (3, 2, b"abc\x1b[s\x1b[uX", b"abX\n\ncursor 1 3\n"),
            (3, 2, b"abc\x1b[1;3HX", b"abX\n\ncursor 1 3\n"),
            (3, 2, b"abc\x1b[CX", b"abX\n\ncursor 1 3\n"),
            (3, 2, b"abc\x1b[LX", b"X\nabc\ncursor 1 2\n"),
            (3, 2, b"abc\x1b[?6lX", b"Xbc\n\ncursor 1 2\n"),
            (3, 2, b"abc\x1bDX", b"abc\n  X\ncursor 2 3\n"),
        ];
        all_show(&rt, table)
    }

    // And by nothing else.
    #[test]
    fn wrap_kept(rt: HostRuntime) -> Result<(), Fail> {
        let table: &[Case] = &[
            (3, 2, b"abcX", b"abc\nX\ncursor 2 2\n"),
            (3, 2, b"abc\x1b[KX", b"ab\nX\ncursor 2 2\n"),
            (3, 2, b"abc\x1b[JX", b"ab\nX\ncursor 2 2\n"),
            (3, 2, b"abc\x1b[XX", b"ab\nX\ncursor 2 2\n"),
            (3, 2, b"abc\x1b[@X", b"ab\nX\ncursor 2 2\n"),
            (3, 2, b"abc\x1b[PX", b"ab\nX\ncursor 2 2\n"),
            (3, 2, b"abc\x1b7X", b"abc\nX\ncursor 2 2\n"),
            (3, 2, b"abc\x1b[1mX", b"abc\nX\ncursor 2 2\n"),
            (3, 2, b"abc\x1b[SX", b"\nX\ncursor 2 2\n"),
            (3, 2, b"abc\x07X", b"abc\nX\ncursor 2 2\n"),
            (3, 2, b"abc\x1b[2;1rX", b"abc\nX\ncursor 2 2\n"),
            (3, 2, b"abc\x1b[6nX", b"abc\nX\ncursor 2 2\n"),
            (3, 2, b"abc\x1b[?7lX", b"abc\nX\ncursor 2 2\n"),
            (3, 2, b"\x1b[?7labcde", b"abe\n\ncursor 1 3\n"),
            (3, 2, b"\x1b[?7labcd\x1b[?7hef", b"abe\nf\ncursor 2 2\n"),
            (3, 3, b"\x1b[1;2r\x1b[3;1HabcX", b"\n\nXbc\ncursor 3 2\n"),
        ];
        all_show(&rt, table)
    }

    // Cursor motion.
    #[test]
    fn cursor_motion(rt: HostRuntime) -> Result<(), Fail> {
        let table: &[Case] = &[
            (
                6,
                4,
                b"\x1b[3;3H\x1b[Aa\x1b[2Bb\x1b[2Dc\x1b[Cd",
                b"\n  a\n\n  cbd\ncursor 4 6\n",
            ),
            (
                4,
                3,
                b"\x1b[9A\x1b[9D\x1b[9C\x1b[9Bx",
                b"\n\n   x\ncursor 3 4\n",
            ),
            (4, 2, b"\x1b[0C\x1b[0Bx", b"\n x\ncursor 2 3\n"),
            (4, 4, b"ab\x1b[2Ec\x1b[Fd", b"ab\nd\nc\n\ncursor 2 2\n"),
            (
                5,
                3,
                b"\x1b[4Gx\x1b[3dy\x1b[9Gz",
                b"   x\n\n    z\ncursor 3 5\n",
            ),
            (
                4,
                3,
                b"\x1b[2;3Ha\x1b[1;1fb\x1b[9;9Hc\x1b[Hd",
                b"d\n  a\n   c\ncursor 1 2\n",
            ),
            (4, 3, b"\x1b[99999Bx", b"\n\nx\ncursor 3 2\n"),
            (4, 3, b"a\x1bDb\x1bEc\x1bMd", b"a\n d\nc\ncursor 2 3\n"),
            (4, 2, b"ab\x1b[2;2H\x1b8X", b"Xb\n\ncursor 1 2\n"),
            (3, 1, b"a\x1b[?25l", b"a\ncursor hidden\n"),
            (3, 1, b"\x1b[?25l\x1b[?25hb", b"b\ncursor 1 2\n"),
        ];
        all_show(&rt, table)
    }

    // Erasing, inserting and deleting.
    #[test]
    fn edits(rt: HostRuntime) -> Result<(), Fail> {
        let table: &[Case] = &[
            (3, 3, b"abcdefghi\x1b[2;2H\x1b[J", b"abc\nd\n\ncursor 2 2\n"),
            (
                3,
                3,
                b"abcdefghi\x1b[2;2H\x1b[1J",
                b"\n  f\nghi\ncursor 2 2\n",
            ),
            (3, 3, b"abcdefghi\x1b[2;2H\x1b[2J", b"\n\n\ncursor 2 2\n"),
            (
                3,
                3,
                b"abcdefghi\x1b[2;2H\x1b[3J",
                b"abc\ndef\nghi\ncursor 2 2\n",
            ),
            (
                5,
                3,
                b"abcde\r\nabcde\r\nabcde\x1b[1;3H\x1b[K\x1b[2;3H\x1b[1K\x1b[3;3H\x1b[2K",
                b"ab\n   de\n\ncursor 3 3\n",
            ),
            (
                6,
                3,
                b"abcdef\r\nabcdef\r\nabcdef\x1b[1;2H\x1b[2@\x1b[2;2H\x1b[2P\x1b[3;2H\x1b[2X",
                b"a  bcd\nadef\na  def\ncursor 3 2\n",
            ),
            (3, 1, b"abc\x1b[1;2H\x1b[9P", b"a\ncursor 1 2\n"),
            (3, 1, b"abc\x1b[1;2H\x1b[9X", b"a\ncursor 1 2\n"),
            (5, 1, b"abcd\r\x1b[4hXY", b"XYabc\ncursor 1 3\n"),
            (5, 1, b"abcd\r\x1b[4hX\x1b[4lY", b"XYbcd\ncursor 1 3\n"),
            (3, 2, b"abc\x1b[4hX", b"abc\nX\ncursor 2 2\n"),
        ];
        all_show(&rt, table)
    }

    // Scrolling and the scroll region.
    #[test]
    fn scrolling(rt: HostRuntime) -> Result<(), Fail> {
        let table: &[Case] = &[
            (
                3,
                4,
                b"a\r\nb\r\nc\r\nd\x1b[2;2H\x1b[2L",
                b"a\n\n\nb\ncursor 2 1\n",
            ),
            (
                3,
                4,
                b"a\r\nb\r\nc\r\nd\x1b[2;2H\x1b[2M",
                b"a\nd\n\n\ncursor 2 1\n",
            ),
            (
                3,
                4,
                b"a\r\nb\r\nc\r\nd\x1b[2;3r\x1b[4;1H\x1b[LX",
                b"a\nb\nc\nX\ncursor 4 2\n",
            ),
            (
                3,
                4,
                b"a\r\nb\r\nc\r\nd\x1b[2;3r\x1b[2;1H\x1b[L",
                b"a\n\nb\nd\ncursor 2 1\n",
            ),
            (3, 4, b"a\r\nb\r\nc\r\nd\x1b[2S", b"c\nd\n\n\ncursor 4 2\n"),
            (3, 4, b"a\r\nb\r\nc\r\nd\x1b[T", b"\na\nb\nc\ncursor 4 2\n"),
            (
                3,
                4,
                b"a\r\nb\r\nc\r\nd\x1b[2;3r\x1b[S",
                b"a\nc\n\nd\ncursor 1 1\n",
            ),
            (
                3,
                4,
                b"a\r\nb\r\nc\r\nd\x1b[2;3r\x1b[3;1H\nx",
                b"a\nc\nx\nd\ncursor 3 2\n",
            ),
            (
                3,
                4,
                b"a\r\nb\r\nc\r\nd\x1b[1;2r\x1b[4;1H\nx",
                b"a\nb\nc\nx\ncursor 4 2\n",
            ),
            (
                3,
                3,
                b"a\r\nb\r\nc\x1b[2r\x1b[3;1H\n",
                b"a\nc\n\ncursor 3 1\n",
            ),
            (
                3,
                3,
                b"a\r\nb\r\nc\x1b[1;2r\x1b[r\x1b[3;1H\n",
                b"b\nc\n\ncursor 3 1\n",
            ),
            (3, 3, b"a\r\nb\x1b[H\x1bMx", b"x\na\nb\ncursor 1 2\n"),
        ];
        all_show(&rt, table)
    }

    // Origin mode, and stops at the region.
    #[test]
    fn origin(rt: HostRuntime) -> Result<(), Fail> {
        let table: &[Case] = &[
            (
                4,
                5,
                b"\x1b[2;4r\x1b[?6hA\x1b[2;2HB\x1b[9;9HC",
                b"\nA\n B\n   C\n\ncursor 4 4\n",
            ),
            (
                4,
                5,
                b"\x1b[2;4r\x1b[?6h\x1b[?6lX",
                b"X\n\n\n\n\ncursor 1 2\n",
            ),
            (
                4,
                5,
                b"\x1b[2;4r\x1b[?6h\x1b[2dX",
                b"\n\nX\n\n\ncursor 3 2\n",
            ),
            (
                4,
                5,
                b"\x1b[2;4r\x1b[3;1H\x1b[9AX",
                b"\nX\n\n\n\ncursor 2 2\n",
            ),
            (
                4,
                5,
                b"\x1b[2;4r\x1b[3;1H\x1b[9BX",
                b"\n\n\nX\n\ncursor 4 2\n",
            ),
            (
                4,
                5,
                b"\x1b[2;4r\x1b[5;1H\x1b[9AX",
                b"\nX\n\n\n\ncursor 2 2\n",
            ),
            (4, 5, b"\x1b[2;4r\x1b[9AX", b"X\n\n\n\n\ncursor 1 2\n"),
            (
                4,
                5,
                b"\x1b[2;4r\x1b[?6h\x1b[2;2H\x1b7\x1b[?6l\x1b8X\x1b[1;1HY",
                b"\nY\n X\n\n\ncursor 2 2\n",
            ),
            (
                4,
                3,
                b"ab\x1b[2;3r\x1b[?6h\x1b[4h\x1b[?7l\x1b[?25l\x1b[2;2H\x1b7\x1bcxyzwv\x1b8Q",
                b"Qyzw\nv\n\ncursor 1 2\n",
            ),
        ];
        all_show(&rt, table)
    }

    // The parser.
    #[test]
    fn parser(rt: HostRuntime) -> Result<(), Fail> {
        let table: &[Case] = &[
            (6, 1, b"a\x1b[3\x18Cb", b"aCb\ncursor 1 4\n"),
            (6, 1, b"a\x1b[3\x1aCb", b"aCb\ncursor 1 4\n"),
            (6, 1, b"a\x1b[3\x1b[Cb", b"a b\ncursor 1 4\n"),
            (6, 2, b"ab\x1b[\r2Cx", b"abx\n\ncursor 1 4\n"),
            (6, 1, b"a\x1b[\x7f2Cb", b"a  b\ncursor 1 5\n"),
            (
                4,
                1,
                b"\x1b[?0;0;0;0;0;0;0;0;0;0;0;0;0;0;0;25lx",
                b"x\ncursor hidden\n",
            ),
            (
                4,
                1,
                b"\x1b[?0;0;0;0;0;0;0;0;0;0;0;0;0;0;0;0;25lx",
                b"x\ncursor 1 2\n",
            ),
            (4, 1, b"\x1b[?65561lx", b"x\ncursor 1 2\n"),
            (6, 1, b"\x1b[2?25lx", b"x\ncursor 1 2\n"),
            (
                6,
                1,
                b"\x1b[2 qa\x1b[>4;1mb\x1b[4:3mc",
                b"abc\ncursor 1 4\n",
            ),
            (6, 1, b"\x1b(Bx", b"x\ncursor 1 2\n"),
            (6, 1, b"\x1b(0ab", b"b\ncursor 1 2\n"),
            (6, 1, b"a\x1b[3\xc3Cb", b"ab\ncursor 1 3\n"),
            (6, 1, b"\x1bPab", b"ab\ncursor 1 3\n"),
            (6, 1, b"a\x1b[5zb\x1b[?5Cc", b"abc\ncursor 1 4\n"),
            (6, 1, b"ab\x1b[3", b"ab\ncursor 1 3\n"),
        ];
        all_show(&rt, table)
    }

    // Control strings.
    #[test]
    fn strings(rt: HostRuntime) -> Result<(), Fail> {
        let table: &[Case] = &[
            (6, 1, b"a\x1b]0;title\x07b", b"ab\ncursor 1 3\n"),
            (6, 1, b"a\x1b]0;title\x1b\\b", b"ab\ncursor 1 3\n"),
            (6, 1, b"a\x1b]0;x\x1b[31my\x07b", b"ab\ncursor 1 3\n"),
            (6, 1, b"a\x1b]0;x\x18y\x07b", b"ab\ncursor 1 3\n"),
            (6, 2, b"a\x1b]x\r\ny\x07b", b"ab\n\ncursor 1 3\n"),
            (6, 1, b"a\x1b]x\x1b\x7f\\b", b"ab\ncursor 1 3\n"),
            (6, 1, b"a\x1b]0;no end", b"a\ncursor 1 2\n"),
        ];
        all_show(&rt, table)
    }

    // What the terminal answers to these bytes.
    fn answers(
        rt: &(impl Abort + AllocGlobal),
        wide: usize,
        high: usize,
        bytes: &[u8],
        text: &[u8],
    ) -> Result<(), Fail> {
        let Some(size) = Size::new(wide, high) else {
            return Err(Fail::new("no such size"));
        };
        let mut cells = vec![in rt.alloc(); 0u64; size.cells()]?;
        let Some(mut term) = Terminal::start(size, cells.as_mut_slice()) else {
            return Err(Fail::new("no terminal"));
        };
        let mut out = [0; 640];
        let Some(n) = term.feed(cells.as_mut_slice(), bytes, &mut out) else {
            return Err(Fail::new("not fed"));
        };
        assert!(rt; n <= 640);
        assert_eq!(rt; &out[0..n], text);
        Ok(())
    }

    // Device status reports, and the cursor position in origin mode.
    #[test]
    fn reports(rt: HostRuntime) -> Result<(), Fail> {
        let table: &[Case] = &[
            (10, 5, b"\x1b[3;4H\x1b[6n", b"\x1b[3;4R"),
            (10, 5, b"\x1b[5n", b"\x1b[0n"),
            (10, 5, b"\x1b[5n\x1b[6n", b"\x1b[0n\x1b[1;1R"),
            (3, 1, b"abc\x1b[6n", b"\x1b[1;3R"),
            (4, 5, b"\x1b[2;4r\x1b[?6h\x1b[2;2H\x1b[6n", b"\x1b[2;2R"),
            (4, 5, b"\x1b[?6h\x1b7\x1b[3;5r\x1b8\x1b[6n", b"\x1b[1;1R"),
            (4, 5, b"\x1b[0n\x1b[7n\x1b[?6n\x1b[n", b""),
            (
                200,
                60,
                b"\x1b[60;200H\x1b[6n\x1bc\x1b[6n",
                b"\x1b[60;200R\x1b[1;1R",
            ),
        ];
        for (wide, high, bytes, text) in table {
            answers(&rt, *wide, *high, bytes, text)?;
        }
        Ok(())
    }

    // A sequence that lies across the end of a part.
    #[test]
    fn long_input(rt: HostRuntime) -> Result<(), Fail> {
        let mut bytes = vec![in rt.alloc(); b'\r'; 4094]?;
        bytes.extend_from_slice(b"a\x1b[3Cb")?;
        shows(&rt, 9, 1, bytes.as_slice(), b"a   b\ncursor 1 6\n")
    }

    // Cells that are not the screen's, more bytes than a part, and too little room for answers are refused.
    #[test]
    fn refusals(rt: HostRuntime) -> Result<(), Fail> {
        let Some(size) = Size::new(4, 3) else {
            return Err(Fail::new("no such size"));
        };
        let mut few = [0; 11];
        let mut cells = [0; 12];
        let mut out = Vec::new(rt.alloc());
        assert!(rt; show(&mut out, size, &mut few, b"a").is_err());
        assert!(rt; out.is_empty());
        assert!(rt; Terminal::start(size, &mut few).is_none());
        let Some(mut term) = Terminal::start(size, &mut cells) else {
            return Err(Fail::new("no terminal"));
        };
        assert!(rt; !feed_all(&mut term, &mut few, b"a"));
        let mut answer = [0; 40];
        assert!(rt; term.feed(&mut few, b"a", &mut answer).is_none());
        assert!(rt; term.feed(&mut cells, b"abcde", &mut answer).is_none());
        assert!(rt; term.feed(&mut cells, b"abcd", &mut answer).is_some());
        Ok(())
    }
}
