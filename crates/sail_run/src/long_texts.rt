//! Texts that are long in one form: pieces, each with how many times it is written. No form may take stack for each of its parts.

/// A register and the bodies of a step over it, of 20,000 parts and more.
pub const BODIES: &[&[(&str, usize)]] = &[
    // statements, names, and conditions that are claimed
    &[("{ ", 1), ("U = (); ", 20_000), ("true }", 1)],
    &[("{ ", 1), ("let x = true; ", 20_000), ("x }", 1)],
    &[("{ ", 1), ("assert(true); ", 20_000), ("true }", 1)],
    &[
        ("{ ", 1),
        ("if false then return true; ", 20_000),
        ("true }", 1),
    ],
    // assignments in one another, and parts that are assigned to together
    &[("{ ", 1), ("U = ", 20_000), ("(); true }", 1)],
    &[
        ("{ (U", 1),
        (", U", 20_000),
        (") = (()", 1),
        (", ()", 20_000),
        ("); true }", 1),
    ],
    // parts of values, and cases
    &[("{ let x = (true", 1), (", true", 20_000), ("); true }", 1)],
    &[
        ("{ let x = [|true", 1),
        (", true", 20_000),
        ("|]; true }", 1),
    ],
    &[
        ("match 3 { 0 => true", 1),
        (", 1 => true", 20_000),
        (", _ => true }", 1),
    ],
];
