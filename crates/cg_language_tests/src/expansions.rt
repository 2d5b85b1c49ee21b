//! Extended scripts and their expansions, or their first bad lines. The texts come from the rules
//! in `specs/Expansion`, worked out by hand.
//!
//! The lines of a script stand with `; ` between them.
use crate::texts::{fault_text, lines};
use cg_weakcoll::expand;
use std::alloc::{AllocError, Global};
use std::process::Abort;
use std::test::Fail;

/// The expansion of some bytes, or their first bad line with its code.
fn told(alloc: Global, bytes: &[u8]) -> Result<Vec<u8>, AllocError> {
    if bytes.len() >= 4_294_967_295 {
        return Err(AllocError);
    }
    match expand(alloc, bytes) {
        Ok(text) => Ok(text),
        Err(fault) => lines(alloc, fault_text(alloc, fault)?.as_str()),
    }
}

fn text_of(bytes: &[u8]) -> Option<&str> {
    str::from_utf8(bytes).ok()
}

/// Scripts and their expansions, or their first bad lines.
static SCRIPTS: [(&str, &str); 75] = [
    // Lines with a form.
    ("m = wmap", "m = dict"),
    ("wset m 1 a", "wv_1 = ref a; put m 1 wv_1; del wv_1"),
    ("x = wget m 'k", "x = none; x = get m 'k; x = deref x"),
    ("wdrop m -007", "drop m -007"),
    (
        "class C; m = wmap; a = new C; wset m 1 a; x = wget m 1; print x; del x; del a; x = wget m 1; print x",
        "class C; m = dict; a = new C; wv_4 = ref a; put m 1 wv_4; del wv_4; x = none; x = get m 1; x = deref x; print x; del x; del a; x = none; x = get m 1; x = deref x; print x",
    ),
    (
        "def p; print 5; end; class C; f = func p; a = new C; b = new C; finalize a f; finalize b f; del a",
        "def p; print 5; end; class C; f = func p; a = new C; b = new C; def wv_p_8; wv_o_8 = deref wv_w_8; quit wv_o_8; del wv_w_8; del wv_o_8; call wv_f_8; end; wv_g_8 = func wv_p_8; wv_f_8 = f; wv_w_8 = ref a wv_f_8; def wv_p_9; wv_o_9 = deref wv_w_9; quit wv_o_9; del wv_w_9; del wv_o_9; call wv_f_9; end; wv_g_9 = func wv_p_9; wv_f_9 = f; wv_w_9 = ref b wv_f_9; del a; call wv_g_9; call wv_g_8",
    ),
    // A string may be written like a name that the expansion brings.
    (
        "class C; def p; end; f = func p; a = new C; m = dict; put m 'wv_o_8 'wv_p_8; finalize a f; print 'wv_g_8",
        "class C; def p; end; f = func p; a = new C; m = dict; put m 'wv_o_8 'wv_p_8; def wv_p_8; wv_o_8 = deref wv_w_8; quit wv_o_8; del wv_w_8; del wv_o_8; call wv_f_8; end; wv_g_8 = func wv_p_8; wv_f_8 = f; wv_w_8 = ref a wv_f_8; print 'wv_g_8; call wv_g_8",
    ),
    // The words of forms are variables too, and several spaces are one.
    ("  wset  =   wmap  ", "wset = dict"),
    (
        "finalize = wget wset wdrop",
        "finalize = none; finalize = get wset wdrop; finalize = deref finalize",
    ),
    (
        "def p; wset c0 self ref; end",
        "def p; wv_2 = ref ref; put c0 self wv_2; del wv_2; end",
    ),
    // Bad bytes, and bad numbers of words.
    ("m\t = wmap", "bad 1 1"),
    ("wset m 1 a\r", "bad 1 1"),
    ("x = wget m\u{7f} 1", "bad 1 1"),
    ("; wdrop m \t", "bad 2 1"),
    ("finalize a f\r; wdrop m", "bad 1 1"),
    ("finalize a f \u{7f} g", "bad 1 1"),
    ("m = wmap 1", "bad 1 3"),
    ("wset", "bad 1 3"),
    ("wset m 1", "bad 1 3"),
    ("wset m 1 a b", "bad 1 3"),
    ("x = wget m", "bad 1 3"),
    ("x = wget m 1 2", "bad 1 3"),
    ("wdrop m", "bad 1 3"),
    ("wdrop m 1 2", "bad 1 3"),
    ("finalize a", "bad 1 3"),
    ("finalize a f f", "bad 1 3"),
    ("list = wmap 1", "bad 1 3"),
    ("wset list 1", "bad 1 3"),
    ("x = wget x", "bad 1 3"),
    ("wdrop wv_1", "bad 1 3"),
    ("def p; finalize a", "bad 2 3"),
    // Words without the form of their place.
    ("list = wmap", "bad 1 4"),
    ("9 = wmap", "bad 1 4"),
    ("wset list 1 a", "bad 1 4"),
    ("wset m wmap= a", "bad 1 4"),
    ("wset m 1 9223372036854775808", "bad 1 4"),
    ("none = wget m 1", "bad 1 4"),
    ("x = wget class 1", "bad 1 4"),
    ("x = wget m c8-", "bad 1 4"),
    ("x = wget x 1", "bad 1 4"),
    ("x = wget m x", "bad 1 4"),
    ("wdrop 1- m", "bad 1 4"),
    ("wdrop m end", "bad 1 4"),
    ("finalize def f", "bad 1 4"),
    ("finalize a func", "bad 1 4"),
    ("def p; finalize list f; end", "bad 2 4"),
    // Finalizers in procedures.
    ("def p; finalize a f; end", "bad 2 7"),
    ("def; finalize a f", "bad 2 7"),
    ("def p; end x; # end; end = 5; finalize a f", "bad 5 7"),
    ("def p; end; def p q; finalize wv_1 f", "bad 4 7"),
    ("def p; finalize wv_1 f", "bad 2 7"),
    ("def p; wdrop m; finalize a f", "bad 2 3"),
    ("def p; def q;  end ; finalize wv_1 f", "bad 4 4"),
    ("def = list; finalize wv_1 f", "bad 2 4"),
    ("# def p; finalize wv_1 f", "bad 2 4"),
    // Names that expansions alone may name.
    ("wv_ = list", "bad 1 4"),
    ("a = list; print wv_1", "bad 2 4"),
    ("def wv_p_1; end", "bad 1 4"),
    ("nonsense\t a b c d e f wv_", "bad 1 4"),
    ("class C del=wv_", "bad 1 4"),
    ("class C del=p legacy=wv_p", "bad 1 4"),
    ("wv_m = wmap", "bad 1 4"),
    ("wset m 1 wv_1", "bad 1 4"),
    ("x = wget wv_1 1", "bad 1 4"),
    ("wdrop m wv_1", "bad 1 4"),
    ("finalize a wv_f", "bad 1 4"),
    ("print wv_1; wdrop m", "bad 1 4"),
    ("wdrop m; print wv_1", "bad 1 3"),
    // Other lines are copied.
    ("", ""),
    (
        ";;# wv_1 wset m;  #del=wv_p; x  =  list ",
        ";;# wv_1 wset m;  #del=wv_p; x  =  list ",
    ),
    (
        "wset = list; wdrop = 5; finalize = x; wset =; x = ; x = wmaps; x wmap; wmap; wget m 1",
        "wset = list; wdrop = 5; finalize = x; wset =; x = ; x = wmaps; x wmap; wmap; wget m 1",
    ),
    (
        "# = wmap; #wset m; x = list wmap",
        "# = wmap; #wset m; x = list wmap",
    ),
    (
        "nonsense wmap\t\r; a = list\r; wset\t m; x = wmap\r",
        "nonsense wmap\t\r; a = list\r; wset\t m; x = wmap\r",
    ),
    (
        "print 'wv_1; print xwv_; print wv; print Wv_1; class C del=p legacy=wv; class C DEL=wv_p",
        "print 'wv_1; print xwv_; print wv; print Wv_1; class C del=p legacy=wv; class C DEL=wv_p",
    ),
    (
        "end; end; def p; def p; end x",
        "end; end; def p; def p; end x",
    ),
];

fn scripts() -> &'static [(&'static str, &'static str)] {
    &SCRIPTS
}

/// The script is to be expanded so.
fn check(
    rt: &impl Abort,
    alloc: Global,
    script: &[u8],
    want: &[u8],
    name: &str,
) -> Result<(), AllocError> {
    let found = told(alloc, script)?;
    assert_eq!(rt; text_of(&found), text_of(want), "at {name:?}");
    Ok(())
}

#[test]
fn scripts_are_expanded_or_have_a_bad_line(rt: HostRuntime) -> Result<(), Fail> {
    let alloc = rt.alloc();
    for (script, want) in scripts() {
        check(
            &rt,
            alloc,
            &lines(alloc, script)?,
            &lines(alloc, want)?,
            script,
        )?;
    }
    Ok(())
}

/// A text: so many line feeds, some words, and so many spaces.
type Text = (usize, &'static str, usize);

fn bytes_of(alloc: Global, text: Text) -> Result<Vec<u8>, AllocError> {
    let (line_feeds, words, spaces) = text;
    let mut bytes = vec![in alloc; b'\n'; line_feeds]?;
    bytes.extend_from_slice(words.as_bytes())?;
    for _ in 0..spaces {
        bytes.push(b' ')?;
    }
    Ok(bytes)
}

/// Texts as they stand, and what they become, before a line feed: a last line without a line feed
/// is a line; lines that are too long; a long comment; and lines behind the first 400,000.
static WHOLE: [(Text, Text); 14] = [
    ((0, "\na = list", 0), (0, "\na = list", 0)),
    ((0, "m = wmap", 0), (0, "m = dict", 0)),
    ((0, "wdrop m 1\n\n ", 0), (0, "drop m 1\n\n ", 0)),
    ((0, "wdrop m", 0), (0, "bad 1 3", 0)),
    ((0, "wdrop m 1", 991), (0, "drop m 1", 0)),
    ((0, "wdrop m 1", 992), (0, "bad 1 5", 0)),
    ((0, "wdrop m", 994), (0, "bad 1 5", 0)),
    ((0, "wdrop m \t", 994), (0, "bad 1 1", 0)),
    ((0, "wv_1", 2000), (0, "bad 1 4", 0)),
    ((0, "x = list\n#", 5000), (0, "x = list\n#", 5000)),
    ((399_999, "m = wmap\n", 0), (399_999, "m = dict", 0)),
    ((399_999, "\na = list\n", 0), (399_999, "\na = list", 0)),
    ((399_999, "\nm = wmap 1", 0), (0, "bad 400001 5", 0)),
    ((399_999, "\n\nwv_1", 0), (0, "bad 400002 4", 0)),
];

fn whole() -> &'static [(Text, Text)] {
    &WHOLE
}

#[test]
fn texts_as_they_stand_are_expanded(rt: HostRuntime) -> Result<(), Fail> {
    let alloc = rt.alloc();
    for (text, want) in whole() {
        let mut wanted = bytes_of(alloc, *want)?;
        wanted.push(b'\n')?;
        check(&rt, alloc, &bytes_of(alloc, *text)?, &wanted, text.1)?;
    }
    Ok(())
}
