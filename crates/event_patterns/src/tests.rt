use super::*;
use hog_value::HogText;
use std::alloc::Global;
use std::test::Fail;

fn read(alloc: Global, text: &str) -> Result<Option<Pattern>, Fail> {
    let text = HogText::from_bytes(alloc, text.as_bytes())?;
    match Pattern::read(alloc, &text) {
        Ok(pattern) => Ok(Some(pattern)),
        Err(PatternStop::Refused) => Ok(None),
        Err(PatternStop::OutOfMemory) => Err(Fail::from("memory")),
    }
}

#[test]
fn patterns_and_texts(rt: HostRuntime) -> Result<(), Fail> {
    let alloc = rt.alloc();
    for (pattern, text, found) in [
        ("^\\$page", "$pageview", Some(true)),
        ("^made", "$pageview", Some(false)),
        ("", "", Some(true)),
        ("view$|^made", "made_up", Some(true)),
        ("(?i)PAGE", "$pageview", Some(true)),
        ("^.$", "\u{e9}", Some(true)),
        ("(", "", None),
        ("a{2}", "aa", None),
        ("\\{", "{", None),
    ] {
        let answer = match read(alloc, pattern)? {
            Some(read) => Some(read.is_in(alloc, &HogText::from_bytes(alloc, text.as_bytes())?)?),
            None => None,
        };
        assert_eq!(rt; answer, found, "of {pattern}");
    }
    Ok(())
}
