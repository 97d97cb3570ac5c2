//! One text with its tokens and their classes.

use super::*;
use pami_model::Sense;
use std::test::Fail;

/// A token's text, its line and its class.
type Told = (&'static [u8], u32, Class);

const TEXT: &[u8] =
    b"Max x: 3e1 3 e1 2e+ .5 5.x\nsubject\nto end : free<=Inf=>\\ :\n\tend=<~7/2 [\r\n";

/// The longest lexeme each: `e` belongs to a number only with digits behind it, and a point only next to a digit. A
/// section word stands first in its line, before no colon.
const TOLD: [Told; 24] = [
    (b"Max", 1, Class::Goal(Sense::Max)),
    (b"x", 1, Class::Name),
    (b":", 1, Class::Colon),
    (b"3e1", 1, Class::Number),
    (b"3", 1, Class::Number),
    (b"e1", 1, Class::Name),
    (b"2", 1, Class::Number),
    (b"e", 1, Class::Name),
    (b"+", 1, Class::Plus),
    (b".5", 1, Class::Number),
    (b"5.", 1, Class::Number),
    (b"x", 1, Class::Name),
    (b"subject", 2, Class::RowsPair),
    (b"to", 3, Class::Name),
    (b"end", 3, Class::Name),
    (b":", 3, Class::Colon),
    (b"free", 3, Class::Free),
    (b"<=", 3, Class::Relation(Relation::AtMost)),
    (b"Inf", 3, Class::Infinity),
    (b"=>", 3, Class::Relation(Relation::AtLeast)),
    (b"end", 4, Class::End),
    (b"=<", 4, Class::Relation(Relation::AtMost)),
    (b"~7/2", 4, Class::Name),
    (b"[", 4, Class::Bad),
];

#[test]
fn tokens_and_classes(rt: HostRuntime) -> Result<(), Fail> {
    let (found, lines) = tokens(rt.alloc(), TEXT)?;
    assert_eq!(rt; lines, 4);
    assert_eq!(rt; found.len(), 24);
    for (i, token) in found.as_slice().iter().enumerate() {
        let after = match found.as_slice().get(i + 1) {
            Some(next) => next.text,
            None => b"".as_slice(),
        };
        assert!(rt; i < 24);
        let (text, line, class) = TOLD[i];
        assert!(rt; token.text == text);
        assert_eq!(rt; token.line, line);
        assert!(rt; class_of(token.text, token.first, after) == class);
    }
    Ok(())
}
