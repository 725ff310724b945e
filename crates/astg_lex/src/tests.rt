//! That lines are given, with the words of each.

use crate::{LexError, lines};
use std::test::Fail;

#[test]
fn gives_the_words_of_each_line(rt: HostRuntime) -> Result<(), Fail> {
    let mut all = lines(rt.alloc(), b"a+ p(2)\r\n\n\tb # x\x01\n<c-,d>=1");
    let table: [(u32, &[(&[u8], u32, u32)]); 4] = [
        (
            1,
            &[
                (b"a+", 0, 2),
                (b"p", 3, 4),
                (b"(", 4, 5),
                (b"2", 5, 6),
                (b")", 6, 7),
            ],
        ),
        (2, &[]),
        (3, &[(b"b", 11, 12)]),
        (
            4,
            &[
                (b"<", 18, 19),
                (b"c-", 19, 21),
                (b",", 21, 22),
                (b"d", 22, 23),
                (b">", 23, 24),
                (b"=", 24, 25),
                (b"1", 25, 26),
            ],
        ),
    ];
    for (number, words) in table {
        let line = all.next_line()?.expect(&rt, "a line");
        assert_eq!(rt; line.number, number);
        assert_eq!(rt; line.words.len(), words.len(), "line {number}");
        for (word, (text, start, end)) in line.words.as_slice().iter().zip(words) {
            assert_eq!(rt; word.text, *text, "line {number}");
            assert_eq!(rt; (word.start, word.end), (*start, *end), "line {number}");
        }
    }
    assert!(rt; all.next_line()?.is_none());
    Ok(())
}

#[test]
fn tells_a_bad_byte_again_and_again(rt: HostRuntime) -> Result<(), Fail> {
    let mut all = lines(rt.alloc(), b"a\n.end \x00\nb\n");
    assert_eq!(rt; all.next_line()?.map(|line| line.number), Some(1));
    for _ in 0..2 {
        assert_eq!(rt; all.next_line().err(), Some(LexError::BadByte { line: 2 }));
    }
    Ok(())
}
