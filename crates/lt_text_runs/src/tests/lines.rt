use lt_lang::next_line;

#[test]
fn lines_end_with_lf_and_lose_one_cr(rt: HostRuntime) {
    for (input, line, rest) in [
        ("a\nb", "a", "b"),
        ("a\r\nb", "a", "b"),
        ("a\r\r\nb", "a\r", "b"),
        ("a\rb\n", "a\rb", ""),
        ("\n\n", "", "\n"),
        ("\r\n", "", ""),
        ("a\r", "a\r", ""),
        ("\r", "\r", ""),
        ("a", "a", ""),
    ] {
        assert_eq!(rt;
            next_line(input.as_bytes()),
            Some((line.as_bytes(), rest.as_bytes())),
            "the first line of {input:?}"
        );
    }
    assert_eq!(rt; next_line(b""), None, "no input");
}
