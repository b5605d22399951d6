use crate::checking::{no_model, two_owed};
use bidir_check::check;
use std::test::Fail;

/// What is printed of two obligations that a variable from 0 to 7 is an index of 8 bits: it isn't below 0, and not from 8 on.
const CERTIFICATES: &str = "obligation 1 1:2:5
case 1
row 1: -1*i <= 0
row 2: 1*i <= -1
step 3: 2 * 1 + 1 * 1 / 1
case 2
row 1: -1*i <= -8
row 2: 1*i <= 7
step 3: 2 * 1 + 1 * 1 / 1
obligation 2 1:2:12
case 1
row 1: -1*i <= 0
row 2: 1*i <= -1
step 3: 2 * 1 + 1 * 1 / 1
case 2
row 1: -1*i <= -8
row 2: 1*i <= 7
step 3: 2 * 1 + 1 * 1 / 1
";

#[test]
fn certificates_are_printed(rt: HostRuntime) -> Result<(), Fail> {
    let alloc = rt.alloc();
    let mut text = Vec::new(alloc);
    if let Ok(certified) = check(alloc, no_model(alloc), two_owed(alloc)?) {
        certified.push_certificates(&mut text)?;
    }
    assert!(rt; text.as_slice() == CERTIFICATES.as_bytes());
    Ok(())
}

#[test]
fn counts_are_printed(rt: HostRuntime) -> Result<(), Fail> {
    let alloc = rt.alloc();
    let mut line = Vec::new(alloc);
    if let Ok(certified) = check(alloc, no_model(alloc), two_owed(alloc)?) {
        certified.push_counts(&mut line)?;
    }
    assert!(rt; line.as_slice() == b"accepted 0 functions 2 obligations".as_slice());
    Ok(())
}
