use jesc_lexer::*;
use jesc_text::{OutOfMemory, Place, Text, put_number};
use std::alloc::Global;

type Case = (&'static str, &'static str);

// White space and plain comments.
const BLANKS_AND_COMMENTS: [Case; 24] = [
    ("", ""),
    (" \t\x0c\r\n", ""),
    ("class A{}", "Wclass WA S{ S}"),
    ("\x0b", "L3 1:1 \x0b"),
    ("a b", "L3 1:2  "),
    ("a // b\nc", "Wa Wc"),
    ("// b", ""),
    ("// a\rb\nc", "Wc"),
    ("a /* b */ c", "Wa Wc"),
    ("/* a\n*/b", "Wb"),
    ("/*/ a */b", "Wb"),
    ("/**/a", "Wa"),
    ("/***/a", "Wa"),
    ("/* a", "L2 1:1 "),
    ("b /* a *", "L2 1:3 "),
    ("/*/", "L2 1:1 "),
    ("/* // */ a", "Wa"),
    ("// /*\na", "Wa"),
    ("/* /* */ a", "Wa"),
    ("a / b", "Wa S/ Wb"),
    ("a /= b", "Wa S/= Wb"),
    ("a\n  /* b", "L2 2:3 "),
    ("//", ""),
    ("/", "S/"),
];

// Annotations: their at signs, and the comments inside.
const ANNOTATIONS: [Case; 39] = [
    ("//@ a", "wa"),
    ("//@a", "wa"),
    ("//@@@ a", "wa"),
    ("//@ @ a", "s@ wa"),
    ("// @ a", ""),
    ("//@", ""),
    ("//@\na", "Wa"),
    ("//@ a\nb", "wa Wb"),
    ("/*@ a */ b", "wa Wb"),
    ("/*@@ a @@*/", "wa"),
    ("/*@ a @ */", "wa s@"),
    ("/*@ a\n  @ b\n  @*/", "wa wb"),
    ("/*@ a\n@@@b*/", "wa wb"),
    ("/*@ a\n @ @ b*/", "wa s@ wb"),
    ("/*@ a\n\n @ b */", "wa wb"),
    ("//@ a @ b", "wa s@ wb"),
    ("/*@ a @@b */", "wa s@ s@ wb"),
    ("/*@*/a", "Wa"),
    ("/*@@*/", ""),
    ("/* @ a */", ""),
    ("/*@ a b", "L2 1:1 "),
    ("/*@/", "L2 1:1 "),
    ("x //@ y", "Wx wy"),
    ("//@ a // b\nc", "wa Wc"),
    ("//@ a /* b */ c", "wa wc"),
    ("//@ a /* b\n*/", "L2 1:7 "),
    ("//@ a /*", "L2 1:7 "),
    ("//@ /*/ */ a", "wa"),
    ("/*@ a // b */ c", "wa Wc"),
    ("/*@ a // b\n c */", "wa wc"),
    ("/*@ a /* b */", "L3 1:7 /"),
    ("/*@ a //@ b\n c */", "wa wc"),
    ("//@ a //+K@ b", "wa"),
    ("//@ a /*+K@ b */ c", "wa wc"),
    ("/*@ // @*/ a", "Wa"),
    ("/*@ /*", "L2 1:1 "),
    ("/*@ / */", "s/"),
    ("/*@ a\r@ b*/", "wa s@ wb"),
    ("//@ a\r@ b", "wa s@ wb"),
];

// Comments with keys.
const CONDITIONAL: [Case; 16] = [
    ("//+K@ a", "L6 1:1 "),
    ("//-K@ a", "L6 1:1 "),
    ("//+@ a", "L6 1:1 "),
    ("//+A-B@ x", "L6 1:1 "),
    ("//+-@", "L6 1:1 "),
    ("/*+K@ a */", "L6 1:1 "),
    ("b /*-K$1@*/", "L6 1:3 "),
    ("/*+K@ a", "L2 1:1 "),
    ("//+K a", ""),
    ("// +K@ a", ""),
    ("//+K @ a", ""),
    ("//K@ a", ""),
    ("//+é@ a", "L6 1:1 "),
    ("//+K*@", ""),
    ("/*+K*/ @", "S@"),
    ("//+\n@", "S@"),
];

// Unicode escapes.
const ESCAPES: [Case; 12] = [
    ("\\u0041", "L5 1:1 "),
    ("a \\u", "L5 1:3 "),
    ("\\\\u", "L3 1:1 \\"),
    ("\\\\\\u", "L5 1:3 "),
    ("// \\u", "L5 1:4 "),
    ("/* \\\\u */a", "Wa"),
    ("//@ \\unknown", "L5 1:5 "),
    ("# \\u", "L5 1:3 "),
    ("/* \\u", "L5 1:4 "),
    ("\\U", "B\\U"),
    ("// \\\\\\\\u\n// \\\\\\\\\\u", "L5 2:8 "),
    ("/* \\ u */", ""),
];

// Words and backslash words.
const WORDS: [Case; 25] = [
    ("abc", "Wabc"),
    ("_", "W_"),
    ("$", "W$"),
    ("a1_$", "Wa1_$"),
    ("é", "Wé"),
    ("名前", "W名前"),
    ("aé1", "Waé1"),
    ("áb", "Wáb"),
    ("́", "L3 1:1 ́"),
    ("😀", "L3 1:1 😀"),
    ("a😀", "L3 1:2 😀"),
    ("a-b", "Wa S- Wb"),
    ("true", "Wtrue"),
    ("a·b", "Wa·b"),
    ("a b", "Wa Wb"),
    ("é+é", "Wé S+ Wé"),
    ("//@ \\result", "b\\result"),
    ("//@ \\a_b", "b\\a_b"),
    ("\\old(x)", "B\\old S( Wx S)"),
    ("\\", "L3 1:1 \\"),
    ("\\1", "L3 1:1 \\"),
    ("//@ \\ a", "L3 1:5 \\"),
    ("\\result1", "B\\result N1"),
    ("\\_", "B\\_"),
    ("\\é", "L3 1:1 \\"),
];

// Numbers with their bounds.
const NUMBERS: [Case; 35] = [
    ("0", "N0"),
    ("7", "N7"),
    ("10", "N10"),
    ("1_000", "N1_000"),
    ("1__0", "N1__0"),
    ("0L", "N0L"),
    ("1l", "N1l"),
    ("12L", "N12L"),
    ("2147483648", "N2147483648"),
    ("9223372036854775808L", "N9223372036854775808L"),
    ("2147483649L", "N2147483649L"),
    ("21474_83648", "N21474_83648"),
    ("0l", "N0l"),
    ("2147483649", "L4 1:1 "),
    ("9223372036854775809L", "L4 1:1 "),
    ("99999999999999999999999999", "L4 1:1 "),
    ("1_", "L4 1:1 "),
    ("00", "L4 1:1 "),
    ("0_1", "L4 1:1 "),
    ("01", "L4 1:1 "),
    ("0x1", "L4 1:1 "),
    ("1LL", "L4 1:1 "),
    ("1La", "L4 1:1 "),
    ("1a", "L4 1:1 "),
    ("1é", "L4 1:1 "),
    ("1_L", "L4 1:1 "),
    ("1_000_", "L4 1:1 "),
    ("9999999999999999999999999999999999999999L", "L4 1:1 "),
    ("1.5", "N1 S. N5"),
    ("1$", "N1 W$"),
    ("1+2", "N1 S+ N2"),
    ("a 08", "L4 1:3 "),
    ("-2147483648", "S- N2147483648"),
    ("//@ 1..2", "n1 s.. n2"),
    ("1L$", "N1L W$"),
];

// Signs of code and of annotations.
const SIGNS: [Case; 36] = [
    (
        "== != <= >= && || ++ -- += -= *= /= %= + - * / % < > ! = ? : ( ) { } [ ] ; , . @",
        "S== S!= S<= S>= S&& S|| S++ S-- S+= S-= S*= S/= S%= S+ S- S* S/ S% S< S> S! S= S? S: S( S) S{ S} S[ S] S; S, S. S@",
    ),
    (
        "//@ == != <= >= && || ++ -- += -= *= /= %= + - * / % < > ! = ? : ( ) { } [ ] ; , . @",
        "s== s!= s<= s>= s&& s|| s++ s-- s+= s-= s*= s/= s%= s+ s- s* s/ s% s< s> s! s= s? s: s( s) s{ s} s[ s] s; s, s. s@",
    ),
    ("<=>", "S<= S>"),
    ("<==>", "S<= S= S>"),
    ("<=!=>", "S<= S!= S>"),
    ("==>", "S== S>"),
    ("..", "S. S."),
    ("<-", "S< S-"),
    ("+++", "S++ S+"),
    ("a---b", "Wa S-- S- Wb"),
    ("&", "L3 1:1 &"),
    ("|", "L3 1:1 |"),
    ("^", "L3 1:1 ^"),
    ("~", "L3 1:1 ~"),
    ("#", "L3 1:1 #"),
    ("\"", "L3 1:1 \""),
    ("'", "L3 1:1 '"),
    ("`", "L3 1:1 `"),
    ("&&&", "L3 1:3 &"),
    ("(&)", "L3 1:2 &"),
    ("//@ <=!=> <==> ==> ..", "s<=!=> s<==> s==> s.."),
    ("//@ <==", "s<= s="),
    ("//@ ...", "s.. s."),
    ("//@ <=!=", "s<= s!="),
    ("//@ a <- b", "wa s< s- wb"),
    ("//@ represents m <- x", "wrepresents wm s<- wx"),
    ("//@ represents <- x", "wrepresents s< s- wx"),
    ("//@ represents m n <- x", "wrepresents wm wn s< s- wx"),
    (
        "//@ represents /* c */ m // d\n//@ <- x",
        "wrepresents wm s<- wx",
    ),
    ("represents m <- x", "Wrepresents Wm S< S- Wx"),
    (
        "//@ represents represents <- x",
        "wrepresents wrepresents s<- wx",
    ),
    ("//@ representsx m <- x", "wrepresentsx wm s< s- wx"),
    ("//@ represents 1 <- x", "wrepresents n1 s< s- wx"),
    ("//@ represents \\x <- y", "wrepresents b\\x s< s- wy"),
    ("//@ represents m <-- x", "wrepresents wm s<- s- wx"),
    ("//@ represent m <- x", "wrepresent wm s< s- wx"),
];

// Which refusal comes first.
const ORDER: [Case; 7] = [
    ("# /*", "L3 1:1 #"),
    ("1x #", "L4 1:1 "),
    ("a\n  #", "L3 2:3 #"),
    ("/*@ # ", "L2 1:1 "),
    ("é #", "L3 1:4 #"),
    ("//@ # \n//+K@", "L3 1:5 #"),
    ("class Cut {\n  /*@ ensures", "L2 2:3 "),
];

/// An annotated class of about 2,000 bytes.
const CLASS: &str = "class Account extends Base implements Holder {
  //@ model int state;
  private int balance; //@ in state;
  /*@ nullable @*/ Account next;
  static final int LIMIT = 1_000_000;
  //@ ghost long total = 0L;
  //@ invariant 0 <= balance && balance <= LIMIT;
  /*@ represents state <- balance + 1;
    @*/

  /*@ public normal_behavior
    @   requires amount > 0 && balance + amount <= LIMIT; // the new balance fits
    @   assignable state;
    @   ensures balance == \\old(balance) + amount;
    @   ensures \\result ==> (\\forall int i; 0 <= i && i < 10; i >= 0);
    @ also
    @ exceptional_behavior
    @   requires amount <= 0;
    @   signals (IllegalArgumentException e) e != null <==> true <=!=> false;
    @   signals_only IllegalArgumentException;
    @*/
  boolean deposit(int amount) {
    if (amount <= 0) {
      throw new IllegalArgumentException();
    }
    /* A plain comment, with a star * and a slash / inside. */
    balance += amount;
    //@ set total = total + amount;
    //@ assert balance % 2 == 0 || balance % 2 != 0;
    return true;
  }

  //@ requires cells != null && from >= 0 && to <= cells.length;
  //@ assignable cells[from .. to], this.*;
  //@ ensures (\\exists int k; from <= k && k < to; cells[k] == -1) ==> !\\result;
  boolean all(int[] cells, int from, int to) {
    boolean ok = true;
    /*@ maintaining from <= i && i <= to; @*/
    //@ loop_invariant ok == true; /* within the line */
    for (int i = from; i < to; i++) {
      ok = ok && cells[i] >= 0 ? true : false;
    }
    return ok;
  }

  @Override
  void scale(long by) {
    next.total *= by / 2L;
    next.balance -= balance-- % 7;
    Object other = (Object) next;
    try {
      this.scale(-9223372036854775808L);
    } catch (RuntimeException e) {
      other = null;
    }
    while (other instanceof Account) {
      break;
    }
  }

  //@ public behavior
  //@   requires values != null && 0 < values.length && values[0] <= LIMIT;
  //@   ensures balance >= \\old(balance) - 1_024;
  /*@ pure helper @*/ private int most(int[] values) { return values[0] /* first */ * 2; }
}
";

/// The letter of a kind, small in an annotation.
fn letter(token: &Token) -> &'static str {
    match (token.kind, token.note) {
        (TokenKind::Word, false) => "W",
        (TokenKind::Backslash, false) => "B",
        (TokenKind::Number, false) => "N",
        (TokenKind::Sign, false) => "S",
        (TokenKind::Word, true) => "w",
        (TokenKind::Backslash, true) => "b",
        (TokenKind::Number, true) => "n",
        (TokenKind::Sign, true) => "s",
    }
}

/// The letters and texts of tokens.
fn put_tokens(into: &mut Text, tokens: &Tokens) -> Result<(), OutOfMemory> {
    for token in tokens.list.as_slice() {
        if into.len() > 0 {
            into.append(b" ")?;
        }
        into.append(letter(token).as_bytes())?;
        let span = token.span.from as usize..token.span.to as usize;
        if let Some(text) = tokens.text.as_slice().get(span) {
            into.append(text)?;
        }
    }
    Ok(())
}

/// A refusal's number, place and word.
fn put_refusal(into: &mut Text, number: u8, place: Place, word: &Text) -> Result<(), OutOfMemory> {
    into.append(b"L")?;
    put_number(into, number as i128)?;
    into.append(b" ")?;
    put_number(into, place.line as i128)?;
    into.append(b":")?;
    put_number(into, place.col as i128)?;
    into.append(b" ")?;
    into.append(word.as_slice())
}

/// What a file gives, in one line.
fn shown(alloc: Global, bytes: &[u8]) -> Result<Text, OutOfMemory> {
    let mut out = Text::new(alloc);
    if bytes.len() > 1048576 {
        return Ok(out);
    }
    match lex(alloc, 0, bytes) {
        Ok(tokens) => put_tokens(&mut out, &tokens)?,
        Err(
            LexError::Refused {
                number,
                place,
                word,
            },
        ) => put_refusal(&mut out, number, place, &word)?,
        Err(LexError::OutOfMemory) => return Err(OutOfMemory),
    }
    Ok(out)
}

/// Whether a file gives this.
fn gives(alloc: Global, bytes: &[u8], want: &str) -> bool {
    match shown(alloc, bytes) {
        Ok(text) => text.as_slice() == want.as_bytes(),
        Err(_) => false,
    }
}

#[test]
fn white_space_and_comments(rt: HostRuntime) {
    for (source, want) in BLANKS_AND_COMMENTS {
        assert!(rt; gives(rt.alloc(), source.as_bytes(), want), "at {source}");
    }
    for (source, want) in CONDITIONAL {
        assert!(rt; gives(rt.alloc(), source.as_bytes(), want), "at {source}");
    }
}

#[test]
fn annotations(rt: HostRuntime) {
    for (source, want) in ANNOTATIONS {
        assert!(rt; gives(rt.alloc(), source.as_bytes(), want), "at {source}");
    }
}

#[test]
fn words_and_numbers(rt: HostRuntime) {
    for (source, want) in WORDS {
        assert!(rt; gives(rt.alloc(), source.as_bytes(), want), "at {source}");
    }
    for (source, want) in NUMBERS {
        assert!(rt; gives(rt.alloc(), source.as_bytes(), want), "at {source}");
    }
}

#[test]
fn signs(rt: HostRuntime) {
    for (source, want) in SIGNS {
        assert!(rt; gives(rt.alloc(), source.as_bytes(), want), "at {source}");
    }
}

#[test]
fn escapes_and_order(rt: HostRuntime) {
    for (source, want) in ESCAPES {
        assert!(rt; gives(rt.alloc(), source.as_bytes(), want), "at {source}");
    }
    for (source, want) in ORDER {
        assert!(rt; gives(rt.alloc(), source.as_bytes(), want), "at {source}");
    }
    assert!(rt; gives(rt.alloc(), b"\xff", "L1 1:1 "));
    assert!(rt; gives(rt.alloc(), b"a\n\xc3", "L1 2:1 "));
    assert!(rt; gives(rt.alloc(), b"# \\u \xe2\x82", "L1 1:6 "));
}

#[test]
fn every_cut_is_answered(rt: HostRuntime) {
    let bytes = CLASS.as_bytes();
    assert!(rt; bytes.len() > 1990 && bytes.len() < 2100);
    for cut in 0..bytes.len() {
        assert!(rt; shown(rt.alloc(), &bytes[..cut]).is_ok(), "at {cut}");
    }
    match lex(rt.alloc(), 3, bytes) {
        Ok(tokens) => {
            let list = tokens.list.as_slice();
            assert!(rt; list.len() > 400);
            assert_eq!(rt; list[0].span.file, 3);
        }
        Err(_) => assert!(rt; false),
    }
}
