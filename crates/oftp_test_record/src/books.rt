//! The passwords in the text of a book, in each way in which TOML lets one be written. What a record has of them is spelled by hand; the digests are
//! those that Python's hashlib worked out.

use oftp_contents::{hidden_book, shown_book, without_passwords};
use std::process::Abort;
use std::test::Fail;

/// A text of a book, and the same without its passwords.
struct Way {
    book: &'static [u8],
    without: &'static [u8],
}

/// Keys and strings of each kind.
const KINDS: [Way; 12] = [
    Way {
        book: b"expects = 'CARPW'",
        without: b"expects = 'XXXXX'",
    },
    Way {
        book: b"\"expects\"=\"CARPW\"",
        without: b"\"expects\"=\"XXXXX\"",
    },
    Way {
        book: b"'sends'\t =\t\"A B-C\"",
        without: b"'sends'\t =\t\"X XXX\"",
    },
    Way {
        book: b"sends = '''\nCARPW'''",
        without: b"sends = '''\nXXXXX'''",
    },
    Way {
        book: b"sends = \"\"\"CAR\\\n  PW\"\"\"",
        without: b"sends = \"\"\"XXX\\\n  XX\"\"\"",
    },
    Way {
        book: b"a = { \"expects\" = 'A', sends = 'B' }",
        without: b"a = { \"expects\" = 'X', sends = 'X' }",
    },
    Way {
        book: b"expects . \"x\" = \"SECRET\"",
        without: b"expects . \"x\" = \"XXXXXX\"",
    },
    Way {
        book: b"x.\"expects\"='SECRET'",
        without: b"x.\"expects\"='XXXXXX'",
    },
    Way {
        book: b"# expects = \"OLD\"",
        without: b"# expects = \"XXX\"",
    },
    Way {
        book: b"# expects = \"OLD\nexpects = \"NEW\"",
        without: b"# expects = \"XXX\nexpects = \"XXX\"",
    },
    Way {
        book: b"name = \"expects\"\ncode = \"O1\"",
        without: b"name = \"expects\"\ncode = \"O1\"",
    },
    Way {
        book: b"a = { name = \"sends\", code = \"O1\" }",
        without: b"a = { name = \"sends\", code = \"O1\" }",
    },
];

/// Characters that are spelled by their numbers, and what else stands behind a backslash.
const SPELLED: [Way; 10] = [
    Way {
        book: b"expects = \"\\u0050ASSWORD\"",
        without: b"expects = \"XXXXXXXX\"",
    },
    Way {
        book: b"expects = \"P\\U00000041SS\\x57ORD\"",
        without: b"expects = \"XXXXXXXX\"",
    },
    Way {
        book: b"\"\\u0065xpects\" = \"SECRET\"",
        without: b"\"\\u0065xpects\" = \"XXXXXX\"",
    },
    Way {
        book: b"\"s\\U00000065nd\\x73\" = 'SECRET'",
        without: b"\"s\\U00000065nd\\x73\" = 'XXXXXX'",
    },
    Way {
        book: b"expects = \"A\\u0020B\\u00e9C\"",
        without: b"expects = \"X\\u0020X\\u00e9X\"",
    },
    Way {
        book: b"expects = \"AB\\\"CD\"",
        without: b"expects = \"XX\\\"XX\"",
    },
    Way {
        book: b"expects = \"\\P\\u00ZZ\\\\A\"",
        without: b"expects = \"\\X\\uXXXX\\\\X\"",
    },
    Way {
        book: b"expects = 'AB\\'\nsends = 'C'",
        without: b"expects = 'XX\\'\nsends = 'X'",
    },
    Way {
        book: b"expects = '\\u0050'\nsends = 'C'",
        without: b"expects = '\\uXXXX'\nsends = 'X'",
    },
    Way {
        book: b"expects = \"\"\"A\\\"\"\"\"\nsends = 'C'",
        without: b"expects = \"\"\"X\\\"\"\"\"\nsends = 'X'",
    },
];

/// Quotes within strings of several lines, and strings without an end.
const ENDS: [Way; 11] = [
    Way {
        book: b"expects = \"\"\"AB\"\"\"\"\"\nsends = 'C'",
        without: b"expects = \"\"\"XX\"\"\"\"\"\nsends = 'X'",
    },
    Way {
        book: b"expects = '''A'B''C''''\nsends = 'C'",
        without: b"expects = '''X'X''X''''\nsends = 'X'",
    },
    Way {
        book: b"expects = \"\"\"\"\"\"\nsends = 'C'",
        without: b"expects = \"\"\"\"\"\"\nsends = 'X'",
    },
    Way {
        book: b"expects = \"\"\nsends = ''\ncode = 'C'",
        without: b"expects = \"\"\nsends = ''\ncode = 'C'",
    },
    Way {
        book: b"expects = \"SECRET",
        without: b"expects = \"XXXXXX",
    },
    Way {
        book: b"expects = '''SECRET''",
        without: b"expects = '''XXXXXX''",
    },
    Way {
        book: b"expects = \"SECRET\\",
        without: b"expects = \"XXXXXX\\",
    },
    Way {
        book: b"expects = \"SECRET\\u00",
        without: b"expects = \"XXXXXX\\uXX",
    },
    Way {
        book: b"expects = \"",
        without: b"expects = \"",
    },
    Way {
        book: b"expects =",
        without: b"expects =",
    },
    Way {
        book: b"",
        without: b"",
    },
];

/// A book with two passwords.
const BOOK: &[u8] = b"code = 'O1'\nexpects = \"CARPW\"\nsends = ''\n";

/// The same with the digests of the passwords by the salt 7.
const HIDDEN: &[u8] =
    b"code = 'O1'\nexpects = \"c067d71f7a5562f8bd00e32dc2a1fd0a3c7b0c2fbca958a8601193769cd80988\"\nsends = 'a3eb8db89fc5123ccfd49585059f292bc40a1c0d550b860f24f84efb4760fbf2'\n";

/// Another book, which has the password of the first one in another place.
const OTHER: &[u8] = b"[[partner]]\nsends = '''CARPW'''\nexpects = 'SUPPW'";

#[test]
fn ways_of_writing(rt: HostRuntime) {
    for way in KINDS.iter().chain(SPELLED.iter()).chain(ENDS.iter()) {
        match without_passwords(rt.alloc(), way.book) {
            Ok(text) => assert!(rt; text.as_slice() == way.without),
            Err(_) => assert!(rt; false),
        }
        match hidden_book(rt.alloc(), way.book, 7) {
            Ok(text) => match shown_book(rt.alloc(), text.as_slice(), 7, way.book) {
                Ok(Some(shown)) => assert!(rt; shown.as_slice() == way.book),
                _ => assert!(rt; false),
            },
            Err(_) => assert!(rt; false),
        }
    }
}

#[test]
fn digests_in_the_place_of_passwords(rt: HostRuntime) {
    match hidden_book(rt.alloc(), BOOK, 7) {
        Ok(text) => assert!(rt; text.as_slice() == HIDDEN),
        Err(_) => assert!(rt; false),
    }
    match shown_book(rt.alloc(), HIDDEN, 7, OTHER) {
        Ok(Some(text)) => assert!(rt; text.as_slice() == BOOK),
        _ => assert!(rt; false),
    }
    // By another salt no password is known, and neither is one that a book lacks.
    for (salt, other) in [(8, OTHER), (7, b"sends = 'SUPPW'".as_slice())] {
        match shown_book(rt.alloc(), HIDDEN, salt, other) {
            Ok(None) => {}
            _ => assert!(rt; false),
        }
    }
}

/// A book of a hundred partners. `None` if memory was refused.
fn book_of_a_hundred(rt: HostRuntime) -> Option<Vec<u8>> {
    let mut book = Vec::new(rt.alloc());
    for tens in b'0'..=b'9' {
        for ones in b'0'..=b'9' {
            for part in [
                b"[[partner]]\nexpects = 'PW".as_slice(),
                &[tens, ones],
                b"'\nsends = \"\\u0050W",
                &[ones, tens],
                b"\"\n",
            ] {
                book.extend_from_slice(part).ok()?;
            }
        }
    }
    Some(book)
}

#[test]
fn hundred_partners(rt: HostRuntime) {
    let Some(book) = book_of_a_hundred(rt) else {
        assert!(rt; false);
        return;
    };
    match without_passwords(rt.alloc(), book.as_slice()) {
        Ok(text) => assert!(rt;
            text.windows(2)
                .all(|two| two != b"PW".as_slice() && two != b"W0".as_slice())
        ),
        Err(_) => assert!(rt; false),
    }
    match hidden_book(rt.alloc(), book.as_slice(), 1) {
        Ok(text) => {
            assert!(rt;
                text.windows(2)
                    .all(|two| two != b"PW".as_slice() && two != b"0W".as_slice())
            );
            match shown_book(rt.alloc(), text.as_slice(), 1, book.as_slice()) {
                Ok(Some(shown)) => assert!(rt; shown.as_slice() == book.as_slice()),
                _ => assert!(rt; false),
            }
        }
        Err(_) => assert!(rt; false),
    }
}
