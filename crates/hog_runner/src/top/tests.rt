use super::*;
use hog_outside::{Failed, MemSink, MemSource};
use hog_value::items::Numbers;
use job_keeper::{MemKeeper, NoKeeper};
use std::test::Fail;

mod plans;
mod plays;

fn given(alloc: Global, words: &[&str]) -> Result<Vec<HogText>, Fail> {
    let mut given = Vec::new(alloc);
    for word in words {
        given.push(HogText::from_bytes(alloc, word.as_bytes())?)?;
    }
    Ok(given)
}

/// The status of a call over streams in memory that don't fail, and what is written to a sink of so much room, where these
/// calls of the keeper fail, counted from 1.
fn answer(
    alloc: Global,
    words: &[&str],
    input: Vec<u8>,
    room: usize,
    failing_puts: &[u32],
) -> Result<(u8, MemSink), Fail> {
    let words = given(alloc, words)?;
    let mut source = MemSource::new(input, Vec::new(alloc));
    let mut sink = MemSink::new(alloc, room, Vec::new(alloc))?;
    let failing_puts = Numbers::new(Vec::from_slice(alloc, failing_puts)?);
    let keeper = MemKeeper::new(alloc, failing_puts);
    let status = top_still(alloc, &words, &mut source, &mut sink, keeper).status;
    Ok((status, sink))
}

/// Whether a command answers an input with this status, and writes just this.
fn writes(alloc: Global, word: &str, input: &str, status: u8, written: &str) -> Result<bool, Fail> {
    let bytes = Vec::from_slice(alloc, input.as_bytes())?;
    let (answered, sink) = answer(alloc, &[word], bytes, 4000, &[])?;
    Ok(answered == status && sink.bytes() == written.as_bytes())
}

/// The first input of a table to which a command doesn't answer with this status and just what stands beside it.
fn odd_one<'a>(
    alloc: Global,
    word: &str,
    status: u8,
    rows: &[(&'a str, &str)],
) -> Result<Option<&'a str>, Fail> {
    for &(input, written) in rows {
        if !writes(alloc, word, input, status, written)? {
            return Ok(Some(input));
        }
    }
    Ok(None)
}

/// Programs, and what `eval` writes of them.
const EVALUATED: [(&str, &str); 47] = [
    ("return 1 + 2;", "result \"3\"\n"),
    ("", "result \"null\"\n"),
    (
        "return 9223372036854775807 + 1;",
        "threw \"{'type': 'IntegerOverflow', 'message': 'integer overflow', 'payload': null}\"\n",
    ),
    (
        "try { return 9223372036854775807 + 1; } catch (e) { return e.type; }",
        "result \"IntegerOverflow\"\n",
    ),
    // The right operand comes first.
    (
        "fun a() { print('a'); return 1; } fun b() { print('b'); return 2; } return a() + b();",
        "print \"b\"\nprint \"a\"\nresult \"3\"\n",
    ),
    (
        "let x := 1; fun f() { x := x + 1; return x; } f(); return f() + x;",
        "result \"5\"\n",
    ),
    (
        "let a := [10]; print(a[1], a[2]); return a[0];",
        "print \"10 null\"\nthrew \"{'type': 'IndexError', 'message': 'index out of range', 'payload': null}\"\n",
    ),
    ("while (true) {}", "turns spent\n"),
    (
        "fun f(n) { if (n == 256) { return n; } return f(n + 1); } return f(1);",
        "result \"256\"\n",
    ),
    (
        "fun f(n) { if (n == 257) { return n; } return f(n + 1); } return f(1);",
        "too deep\n",
    ),
    (
        "let s := 'aaaaaaaa'; while (true) { s := concat(s, s); }",
        "memory spent\n",
    ),
    (
        "try { while (true) {} } catch (e) { return 1; }",
        "turns spent\n",
    ),
    (
        "print(upper('a\u{e9}'), splitByString(',', 'a,b'), toInt('12'), toInt('x'), has([1, 2], 2), empty([]), length('n\u{e9}'));",
        "print \"A\u{e9} ['a', 'b'] 12 null true true 2\"\nresult \"null\"\n",
    ),
    (
        "print(jsonStringify(jsonParse('{\"b\":[1,2.5],\"a\":null}')));",
        "print \"{\\\"a\\\":null,\\\"b\\\":[1,null]}\"\nresult \"null\"\n",
    ),
    (
        "jsonParse('{');",
        "threw \"{'type': 'JsonError', 'message': 'bad json', 'payload': null}\"\n",
    ),
    ("let f := x -> x * 2; return f(4);", "result \"8\"\n"),
    ("return fetch('http://h/').body;", "result \"blocked\"\n"),
    (
        "fetch('https://h/');",
        "request \"https://h/\" \"null\"\nwaiting\n",
    ),
    (
        "fetch('https://h/', {'method': 'GET'});",
        "request \"https://h/\" \"{\\\"method\\\":\\\"GET\\\"}\"\nwaiting\n",
    ),
    (
        "print(arrayMap(x -> x * 2, [1, 2]), arrayFilter(x -> x > 1, [1, 2]), arrayExists(x -> x == 3, [1, 2]));",
        "print \"[2, 4] [2] false\"\nresult \"null\"\n",
    ),
    // Two closures share the variable that both captured.
    (
        "let x := 0; fun add() { x := x + 1; } fun show() { return x; } add(); add(); print(show());",
        "print \"2\"\nresult \"null\"\n",
    ),
    // A hundred captured variables are open at once, and each is closed with its value.
    (
        "let fs := []; fun f(n) { let x := n; fs := arrayPushBack(fs, () -> x); if (n < 100) { f(n + 1); } } f(1); let t := 0; for (let g in fs) { t := t + g(); } return t;",
        "result \"5050\"\n",
    ),
    // What no declaration has is a global.
    ("return x;", "result \"null\"\n"),
    ("let y := y; return y;", "result \"null\"\n"),
    (
        "let x := 1; { let x := x + 1; x := x * 5; print(x); } return x;",
        "print \"10\"\nresult \"1\"\n",
    ),
    (
        "print(0 or [], '' and 1, 'a' == 'a', [] != [], 'B' < 'a', 2 <= 2, -1 > 1);",
        "print \"true false true true true true false\"\nresult \"null\"\n",
    ),
    (
        "print('bc' in 'abcd', 'b' in {'b': null}, 1 not in [2, 1], 1 in null, 1 - 3, -3 * 4);",
        "print \"true true false false -2 -12\"\nresult \"null\"\n",
    ),
    (
        "return 1 >= true;",
        "threw \"{'type': 'TypeError', 'message': 'wrong kind', 'payload': null}\"\n",
    ),
    (
        "print(not null, not false, not 0, not '', not -1, not 'a', not [], not {}, not (x -> x));",
        "print \"true true true true false false false false false\"\nresult \"null\"\n",
    ),
    (
        "let a := [1]; let b := a; let t := 'a'; print(a == b, a == [1], t == 'a', t == 'b', null == false, 0 == null, 1 == 'a', true == false);",
        "print \"true false true false false false false false\"\nresult \"null\"\n",
    ),
    (
        "let a := [10]; a[2] := 2; a[1] := 1; try { a[4] := 0; } catch (e) { print(e.type); } try { a[0] := 0; } catch (e) { print(e.type); } return a;",
        "print \"IndexError\"\nprint \"IndexError\"\nresult \"[1, 2]\"\n",
    ),
    (
        "let d := {'b': null}; d['aa'] := 1; d.b := 2; d[''] := 3; d.aa := 4; print(d.a, {'k': 1, 'j': 2, 'k': 3}); return d;",
        "print \"null {'k': 3, 'j': 2}\"\nresult \"{'b': 2, 'aa': 4, '': 3}\"\n",
    ),
    (
        "let d := {'a': [7]}; d.a[2] := {'a': null}; print(null?.w, d?.a[1]); return d;",
        "print \"null 7\"\nresult \"{'a': [7, {'a': null}]}\"\n",
    ),
    (
        "print(concat('a', null, true, -7), toString([1, 'x']), toInt('-42'), toInt('4 2'), toInt(true), upper('a\u{e9}1z'), lower('A\u{c9}Z'), trim(' \\t a b \\n'));",
        "print \"atrue-7 [1, 'x'] -42 null 1 A\u{e9}1Z a\u{c9}z a b\"\nresult \"null\"\n",
    ),
    (
        "print(startsWith('abc', 'ab'), replaceAll('aaab', 'aa', 'x'), splitByString(',', 'a,,b'), keys({'a': 1, 'b': 2}), keys([7, 8]), values({'a': 2, 'b': 1}));",
        "print \"true xab ['a', '', 'b'] ['a', 'b'] [1, 2] [2, 1]\"\nresult \"null\"\n",
    ),
    (
        "print(has(['x', 1], 'x'), arrayPushBack([1], 2), empty({}), length({'k': 0}), jsonParse('{\"a\":[1]}'), jsonStringify({'a': 'x'}));",
        "print \"true [1, 2] true 1 {'a': [1]} {\\\"a\\\":\\\"x\\\"}\"\nresult \"null\"\n",
    ),
    (
        "print(Error('m', 5)); throw Error('m');",
        "print \"{'type': 'Error', 'message': 'm', 'payload': 5}\"\nthrew \"{'type': 'Error', 'message': 'm', 'payload': null}\"\n",
    ),
    (
        "print(dateAdd('2024-02-28', 2), dateDiff('2024-03-01', '2024-02-28'), weekday('2024-03-01'), weekday('2024-02-30'));",
        "print \"2024-03-01 -2 5 null\"\nresult \"null\"\n",
    ),
    (
        "print(dateDiff('1970-01-01', '0000-01-01'), dateDiff('1970-01-01', '1900-02-28'), dateDiff('1970-01-01', '9999-12-31'), weekday('1970-01-04'), weekday('0000-02-29'));",
        "print \"-719528 -25509 2932896 7 2\"\nresult \"null\"\n",
    ),
    (
        "print(dateAdd('1999-12-31', 60), dateAdd('9999-12-31', 1), dateAdd('0000-01-01', -1), weekday('1900-02-29'), weekday('2024-2-29'), weekday('+024-02-29'));",
        "print \"2000-02-29 null null null null null\"\nresult \"null\"\n",
    ),
    (
        "for (let f in [() -> upper(1), () -> has('x', 'x'), () -> length(true), () -> dateAdd('2024-01-01', '1'), () -> fetch('https://h', 1)]) { try { f(); } catch (e) { print(e.type); } }",
        "print \"TypeError\"\nprint \"TypeError\"\nprint \"TypeError\"\nprint \"TypeError\"\nprint \"TypeError\"\nresult \"null\"\n",
    ),
    (
        "let a := ['it\\'s', '\\\\\\n\\r\\t\"']; print(a, jsonStringify(a)); return a[1];",
        "print \"['it\\\\'s', '\\\\\\\\\\\\n\\\\r\\\\t\\\"'] [\\\"it's\\\",\\\"\\\\\\\\\\\\n\\\\r\\\\t\\\\\\\"\\\"]\"\nresult \"it's\"\n",
    ),
    (
        "print('a\"b\\\\c/ \\n\\r\\t\\0\u{e9}\u{20ac}\u{1f600}');",
        "print \"a\\\"b\\\\c/ \\n\\r\\t\\u0000\u{e9}\u{20ac}\u{1f600}\"\nresult \"null\"\n",
    ),
    (
        "print(jsonParse('{\"k\":1,\"b\":2,\"k\":3}'), jsonParse('[true,false,[],{},9223372036854775808,-0,-9223372036854775808]'));",
        "print \"{'b': 2, 'k': 3} [true, false, [], {}, null, null, -9223372036854775808]\"\nresult \"null\"\n",
    ),
    (
        "for (let t in ['[1,]', '', '1e400']) { try { jsonParse(t); } catch (e) { print(e.type); } }",
        "print \"JsonError\"\nprint \"JsonError\"\nprint \"JsonError\"\nresult \"null\"\n",
    ),
    // A cell inside a hundred open ones isn't shown.
    (
        "let v := null; let i := 0; while (i < 100) { v := [v]; i := i + 1; } let w := [v]; print(length(toString(v)), length(jsonStringify(v)), length(toString(w)), length(jsonStringify(w)));",
        "print \"204 204 206 204\"\nresult \"null\"\n",
    ),
    (
        "let a := [x -> x]; a[2] := a; return concat(toString(a), jsonStringify(a));",
        "result \"[<function>, <cycle>][null,null]\"\n",
    ),
];

/// Programs, and what `compile` writes of them.
const COMPILED: [(&str, &str); 9] = [
    ("return 1;", "[\"_H\",1,33,1,38,31,38]\n"),
    ("return 1 + 2;", "[\"_H\",1,33,2,33,1,6,38,31,38]\n"),
    ("while (true) {}", "[\"_H\",1,29,40,2,39,-5,31,38]\n"),
    (
        "let f := x -> x * 2; return f(4);",
        "[\"_H\",1,52,\"lambda\",1,0,6,33,2,36,0,8,38,53,0,33,4,36,0,54,1,38,31,38]\n",
    ),
    (
        "let a := 3; let b; a ?? b;",
        "[\"_H\",1,33,3,31,36,0,47,3,35,36,1,35,31,38]\n",
    ),
    (
        "fun f(x) { return f; }",
        "[\"_H\",1,52,\"f\",1,1,5,55,0,38,31,38,53,1,true,0,31,38]\n",
    ),
    (
        "for (let x in y) {}",
        "[\"_H\",1,32,\"y\",1,1,36,0,2,\"values\",1,36,1,2,\"length\",1,33,1,36,2,36,3,16,40,15,36,1,36,3,45,35,33,1,36,3,6,37,3,39,-22,35,35,35,35,31,38]\n",
    ),
    // Captures are numbered in the order of the text.
    (
        "let x; let y; let f := z -> () -> y + x;",
        "[\"_H\",1,31,31,52,\"lambda\",1,2,18,52,\"lambda\",0,2,6,55,1,55,0,6,38,53,2,false,0,false,1,38,53,2,true,1,true,0,31,38]\n",
    ),
    // What a function captures is closed.
    (
        "{ let x; let y; let f := () -> x; }",
        "[\"_H\",1,31,31,52,\"lambda\",0,1,3,55,0,38,53,1,true,0,35,35,57,31,38]\n",
    ),
];

/// Programs, and what `fmt` writes of them.
const PRINTED: [(&str, &str); 12] = [
    ("", ""),
    ("// nothing\n;", ""),
    (" \t\r\n// a\n/* b */ /**/ //", ""),
    (
        "let  x:=1+2*3 if(x>1){print('it\\'s')}",
        "let x := 1 + (2 * 3);\nif (x > 1) {\n    print('it\\'s');\n}\n",
    ),
    (
        "if (a) if (b) c; else d",
        "if (a) {\n    if (b) {\n        c;\n    } else {\n        d;\n    }\n}\n",
    ),
    ("for(({});;){}", "for (({}); ; ) {\n}\n"),
    (
        "f'a{1+2}\\{'; ({}); 1 .w",
        "f'a{1 + 2}\\{';\n({});\n(1).w;\n",
    ),
    (
        "let f := x -> { return x }",
        "let f := (x) -> { return x; };\n",
    ),
    (
        "{ return -'it\\'s\n' } ({})",
        "{\n    return -'it\\'s\\n';\n}\n({});\n",
    ),
    ("let $x_1 := 1and 2", "let $x_1 := 1 and 2;\n"),
    ("f'{f'{1}'}}'", "f'{f'{1}'}}';\n"),
    (
        "a?.b??c;ff('\u{e9}',9223372036854775807)",
        "a?.b ?? c;\nff('\u{e9}', 9223372036854775807);\n",
    ),
];

/// Texts that are no programs, and the refusal of `fmt` and `eval`.
const NO_TREES: [(&str, &str); 18] = [
    ("let x := \"a\";", "refused: bad byte at 9\n"),
    ("'a\\q'", "refused: bad byte at 2\n"),
    ("'a\\q", "refused: unclosed at 0\n"),
    ("'abc", "refused: unclosed at 0\n"),
    ("a /*/", "refused: unclosed at 2\n"),
    ("f'{\"", "refused: unclosed at 0\n"),
    ("f'{\"}'", "refused: bad byte at 3\n"),
    ("'\\{'", "refused: bad byte at 1\n"),
    ("1 ? 2", "refused: bad byte at 2\n"),
    ("a \u{e9}", "refused: bad byte at 2\n"),
    ("a = b", "refused: bad byte at 2\n"),
    (
        "return 9223372036854775808;",
        "refused: too large a number at 7\n",
    ),
    (
        "f'{99999999999999999999}' '",
        "refused: too large a number at 3\n",
    ),
    ("f'{99999999999999999999}", "refused: unclosed at 0\n"),
    ("f'{f'{'}'}'", "refused: unclosed at 0\n"),
    ("return (1;", "refused: syntax at 9\n"),
    ("[,]", "refused: syntax at 1\n"),
    ("x -> {} + 1", "refused: syntax at 8\n"),
];

/// Programs whose names have a fault, and the refusal of `eval` and `compile`.
const FAULTS_OF_NAMES: [(&str, &str); 8] = [
    ("let a; let a;", "refused: already declared at 11\n"),
    ("x := 1;", "refused: assigns unknown at 0\n"),
    ("foo(1);", "refused: unknown function at 0\n"),
    ("Print(1);", "refused: unknown function at 0\n"),
    ("length();", "refused: wrong count at 0\n"),
    ("  length();", "refused: wrong count at 2\n"),
    // What stands of the prelude in front isn't counted.
    (
        "arrayMap(x -> x, []); y := 1;",
        "refused: assigns unknown at 22\n",
    ),
    ("print(f'a{foo(1)}');", "refused: unknown function at 10\n"),
];

#[test]
fn programs(rt: HostRuntime) -> Result<(), Fail> {
    for (word, status, rows) in [
        ("eval", 0, EVALUATED.as_slice()),
        ("compile", 0, COMPILED.as_slice()),
        ("fmt", 0, PRINTED.as_slice()),
        ("fmt", 1, NO_TREES.as_slice()),
        ("eval", 1, NO_TREES.as_slice()),
        ("eval", 1, FAULTS_OF_NAMES.as_slice()),
        ("compile", 1, FAULTS_OF_NAMES.as_slice()),
    ] {
        assert_eq!(rt; odd_one(rt.alloc(), word, status, rows)?, None, "of {word}");
    }
    Ok(())
}

#[test]
fn words_and_bytes(rt: HostRuntime) -> Result<(), Fail> {
    let rows: [(&[&str], &[u8], u8, &str); 12] = [
        (&[], b"return 1;", 2, "refused: words\n"),
        (&["eval", "x"], b"return 1;", 2, "refused: words\n"),
        (&["Eval"], b"return 1;", 2, "refused: words\n"),
        (&["make"], b"", 2, "refused: words\n"),
        (&["make", ""], b"", 2, "refused: words\n"),
        (&["make", "x"], b"", 2, "refused: words\n"),
        (&["make", "+1"], b"", 2, "refused: words\n"),
        (&["make", "00001"], b"", 2, "refused: words\n"),
        (&["make", "3001"], b"", 2, "refused: words\n"),
        (&["make", "1", "2"], b"", 2, "refused: words\n"),
        (&["eval"], b"\xff", 1, "refused: not utf8 at 0\n"),
        (&["fmt"], b"'\xc3\xa9\xc3", 1, "refused: not utf8 at 3\n"),
    ];
    for (words, input, status, written) in rows {
        let bytes = Vec::from_slice(rt.alloc(), input)?;
        let (answered, sink) = answer(rt.alloc(), words, bytes, 100, &[])?;
        assert_eq!(rt; answered, status, "of {words:?}");
        assert_eq!(rt; sink.bytes(), written.as_bytes(), "of {words:?}");
    }
    Ok(())
}

/// What a command answers where these reads fail, counted from 1, to a sink of so much room, where these writes fail.
fn faulty(
    alloc: Global,
    word: &str,
    input: &str,
    failing_reads: &[u32],
    room: usize,
    failing_writes: &[u32],
) -> Result<(u8, MemSink), Fail> {
    let words = given(alloc, &[word])?;
    let bytes = Vec::from_slice(alloc, input.as_bytes())?;
    let mut source = MemSource::new(bytes, Vec::from_slice(alloc, failing_reads)?);
    let mut sink = MemSink::new(alloc, room, Vec::from_slice(alloc, failing_writes)?)?;
    let status = top_still(alloc, &words, &mut source, &mut sink, NoKeeper).status;
    Ok((status, sink))
}

/// Commands, inputs, the reads that fail, the room of the sink, the writes that fail, and what is answered.
const FAULTS: [(&str, &str, &[u32], usize, &[u32], u8, &str); 8] = [
    // The second read is the one at the end.
    ("eval", "return 1;", &[1], 1000, &[], 3, ""),
    ("eval", "return 1;", &[2], 1000, &[], 3, ""),
    // A sink that fails, and one without room: a line that doesn't fit is taken in part.
    (
        "eval",
        "print(1); print(2);",
        &[],
        1000,
        &[2],
        4,
        "print \"1\"\n",
    ),
    (
        "eval",
        "print(1); print(2);",
        &[],
        14,
        &[],
        4,
        "print \"1\"\nprin",
    ),
    // A printed tree goes out line by line.
    ("fmt", "a; b;", &[], 1000, &[2], 4, "a;\n"),
    ("fmt", "a; b;", &[], 1000, &[3], 0, "a;\nb;\n"),
    // A refusal stays one where its line can't be written.
    ("eval", "x := 1;", &[], 1000, &[1], 1, ""),
    ("eval", "x := 1;", &[], 3, &[], 1, "ref"),
];

#[test]
fn faults_of_streams(rt: HostRuntime) -> Result<(), Fail> {
    for (word, input, reads, room, failing_writes, status, written) in FAULTS {
        let (answered, sink) = faulty(rt.alloc(), word, input, reads, room, failing_writes)?;
        assert_eq!(rt; answered, status, "of {input}");
        assert_eq!(rt; sink.bytes(), written.as_bytes(), "of {input}");
    }
    Ok(())
}

/// `return 1;` in so many pairs of parentheses.
fn nested(alloc: Global, pairs: usize) -> Result<Vec<u8>, Fail> {
    let mut source = Vec::from_slice(alloc, b"return ")?;
    for _ in 0..pairs {
        source.push(b'(')?;
    }
    source.push(b'1')?;
    for _ in 0..pairs {
        source.push(b')')?;
    }
    Ok(source)
}

#[test]
fn heights(rt: HostRuntime) -> Result<(), Fail> {
    let alloc = rt.alloc();
    // The statement, the pairs and the number.
    for (pairs, status, written) in [
        (98, 0, "return 1;\n"),
        (99, 1, "refused: too nested at 106\n"),
        (101, 1, "refused: too nested at 106\n"),
    ] {
        let (answered, sink) = answer(alloc, &["fmt"], nested(alloc, pairs)?, 100, &[])?;
        assert_eq!(rt; answered, status, "of {pairs} pairs");
        assert_eq!(rt; sink.bytes(), written.as_bytes());
    }
    Ok(())
}

#[test]
fn lengths(rt: HostRuntime) -> Result<(), Fail> {
    let alloc = rt.alloc();
    for (length, status, written) in [
        (16_384, 0, ""),
        (16_385, 1, "refused: program too long\n"),
        (16_777_217, 1, "refused: too large\n"),
    ] {
        let input = vec![in alloc; b' '; length]?;
        let (answered, sink) = answer(alloc, &["fmt"], input, 100, &[])?;
        assert_eq!(rt; answered, status, "of {length} bytes");
        assert_eq!(rt; sink.bytes(), written.as_bytes());
    }
    Ok(())
}

/// A stream that moves at most two bytes at a call, and tells none.
#[derive(Drop)]
struct Drip<T>(T);

impl<S: Source> Source for Drip<S> {
    ghost use Rattle.std.specs.declared.option.Option.TheVariants.{None};

    ghost faults = { λ drip. S.faults drip.0 };

    ghost left = { λ _. None };

    fn read(&mut self, buf: &mut [u8]) -> Result<usize, Failed> {
        let most = buf.len().min(2);
        self.0.read(&mut buf[..most])
    }
}

impl<W: Sink> Sink for Drip<W> {
    ghost use Rattle.std.specs.declared.option.Option.TheVariants.{None};

    ghost faults = { λ drip. W.faults drip.0 };

    ghost taken = { λ _. None };

    fn write(&mut self, piece: &[u8]) -> Result<usize, Failed> {
        let most = piece.len().min(2);
        self.0.write(&piece[..most])
    }
}

/// What a command answers over such streams where these writes fail, counted from 1.
fn drips(
    alloc: Global,
    word: &str,
    input: &str,
    failing_writes: &[u32],
) -> Result<(u8, Drip<MemSink>), Fail> {
    let words = given(alloc, &[word])?;
    let bytes = Vec::from_slice(alloc, input.as_bytes())?;
    let mut source = Drip(MemSource::new(bytes, Vec::new(alloc)));
    let mut sink = Drip(MemSink::new(alloc, 100, Vec::from_slice(alloc, failing_writes)?)?);
    let status = top_still(alloc, &words, &mut source, &mut sink, NoKeeper).status;
    Ok((status, sink))
}

#[test]
fn goes_on_after_a_part(rt: HostRuntime) -> Result<(), Fail> {
    let none: &[u32] = &[];
    let rows: [(&str, &str, &[u32], u8, &str); 3] = [
        (
            "eval",
            "print(1); return 2;",
            none,
            0,
            "print \"1\"\nresult \"2\"\n",
        ),
        ("eval", "print(1); return 2;", &[7], 4, "print \"1\"\nre"),
        (
            "replay",
            "[[\"enqueue\",\"\",{},0,0]]",
            none,
            0,
            "enqueue 0\njob 0 available hog\nentries queued 1 taken 0 beat 0 ran 0 replied 0 swept 0\n",
        ),
    ];
    for (word, input, failing_writes, status, written) in rows {
        let (answered, sink) = drips(rt.alloc(), word, input, failing_writes)?;
        assert_eq!(rt; answered, status, "of {input}");
        assert_eq!(rt; sink.0.bytes(), written.as_bytes(), "of {input}");
    }
    Ok(())
}
