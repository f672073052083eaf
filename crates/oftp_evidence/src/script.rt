//! The script that checks a folder of evidence.

ghost use Rattle.std.specs.Prelude.{◌≡◌};
ghost use Rattle.oftp_evidence.specs.Scripts.{verify_script};

/// The text of `verify.sh`. It compares the sums of the folder's files, and plays its record over a new database. The book for that is its
/// first argument, since the record has no passwords.
pub fn verify_script() -> &'static str
    ensures { result.now ≡ verify_script }
{
    "#!/bin/sh
# sh verify.sh BOOK: compares the sums, and plays the record over a new database, by the book.
set -eu
folder=$(dirname \"$0\")
(cd \"$folder\" && sha256sum -c SHA256SUMS)
new=$(mktemp -d)
trap 'rm -r \"$new\"' EXIT
oftp_station replay --record \"$folder/record\" --db \"$new/new.db\" --book \"$1\"
"
}
