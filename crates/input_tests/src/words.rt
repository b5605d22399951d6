use sail_base::Text;
use sail_words::{Command, LineError, Run, line};
use std::alloc::{AllocError, Global};
use std::test::Fail;

/// A word and the names of models, as text.
fn told_models(alloc: Global, word: &str, models: &[Text]) -> Result<String, AllocError> {
    let mut told = String::from_str(alloc, word)?;
    for model in models {
        told.push_str(" ")?;
        told.push_str(model.as_str())?;
    }
    Ok(told)
}

/// What a run asks for, as text.
fn told_run(alloc: Global, run: &Run) -> Result<String, AllocError> {
    let mut models = String::new(alloc);
    for model in run.models.as_slice() {
        models.push_str(model.as_str())?;
        models.push_str(" ")?;
    }
    format!(in alloc;
        "{} {}{} {} {:?} {} {}",
        run.elf.as_str(),
        models,
        run.setup.steps,
        run.setup.harts,
        run.setup.order.as_slice(),
        run.setup.ram_base,
        run.setup.ram_size
    )
}

/// What a command asks for, as text.
fn told(alloc: Global, command: &Command) -> Result<String, AllocError> {
    match command {
        Command::Run(run) => told_run(alloc, run),
        Command::Check(models) => told_models(alloc, "check", models.as_slice()),
        Command::Certs(models) => told_models(alloc, "certs", models.as_slice()),
        Command::Synth(numbers) => { format!(in alloc; "synth {} {}", numbers.seed, numbers.size) }
    }
}

/// The words of a text.
fn words<'a>(alloc: Global, text: &'a str) -> Result<Vec<&'a str>, AllocError> {
    let mut words = Vec::new(alloc);
    for word in text.split_whitespace() {
        words.push(word)?;
    }
    Ok(words)
}

/// The answer to words, as text.
fn answer(alloc: Global, words: &[&str]) -> Result<String, AllocError> {
    let mut list = Vec::new(alloc);
    for word in words {
        list.push(String::from_str(alloc, word)?)?;
    }
    match line(alloc, list.as_slice()) {
        Ok(command) => told(alloc, &command),
        Err(LineError::Usage) => String::from_str(alloc, "usage"),
        Err(LineError::OutOfMemory) => Err(AllocError),
    }
}

/// Words that ask for a run, and what they ask for.
const RUNS: [(&str, &str); 11] = [
    ("run --elf Q M", "Q M 1000 1 [0] 2147483648 1048576"),
    ("run M --elf=Q N", "Q M N 1000 1 [0] 2147483648 1048576"),
    ("run --elf= M", " M 1000 1 [0] 2147483648 1048576"),
    ("run --elf - -", "- - 1000 1 [0] 2147483648 1048576"),
    (
        "run --elf=-Q -- -M -- run",
        "-Q -M -- run 1000 1 [0] 2147483648 1048576",
    ),
    (
        "run --order=10 --harts 002 --elf=Q help",
        "Q help 1000 2 [1, 0] 2147483648 1048576",
    ),
    (
        "run --harts 8 --elf=Q M",
        "Q M 1000 8 [0, 1, 2, 3, 4, 5, 6, 7] 2147483648 1048576",
    ),
    (
        "run --steps=4294967295 --elf=Q M",
        "Q M 4294967295 1 [0] 2147483648 1048576",
    ),
    (
        "run --steps=0 --elf=Q M --order 000",
        "Q M 0 1 [0, 0, 0] 2147483648 1048576",
    ),
    (
        "run --ram-base=18446744073709551615 --ram-size=1 --elf=Q M",
        "Q M 1000 1 [0] 18446744073709551615 1",
    ),
    (
        "run --ram-base=0 --ram-size=67108864 --elf=Q M",
        "Q M 1000 1 [0] 0 67108864",
    ),
];

/// Words that ask for models to be checked or certified, and what they ask for.
const CHECKS: [(&str, &str); 3] = [
    ("check M", "check M"),
    ("certs M check M", "certs M check M"),
    ("check -- -M", "check -M"),
];

/// Words that ask for a model and a program made of a seed, and what they ask for.
const SYNTHS: [(&str, &str); 4] = [
    ("synth 1 3", "synth 1 3"),
    ("synth 0065535 04000", "synth 65535 4000"),
    ("synth 0 1", "synth 0 1"),
    ("synth -- 5 4000", "synth 5 4000"),
];

/// Words that ask for nothing.
const REFUSED: [&str; 38] = [
    "",
    "run",
    "help",
    "--help",
    "check",
    "check --elf=Q M",
    "certs -M",
    "M run --elf=Q",
    "-- run --elf=Q M",
    "run --elf=Q",
    "run M",
    "run --elf=Q --elf=Q M",
    "run --elf -Q M",
    "run --elf -- Q M",
    "run --elf=Q -M",
    "run --elf=Q --step 1 M",
    "run --elf=Q --steps=+5 M",
    "run --elf=Q --steps= M",
    "run --elf=Q --steps=4294967296 M",
    "run --elf=Q --harts=0 M",
    "run --elf=Q --harts=9 M",
    "run --elf=Q --order= M",
    "run --elf=Q --harts=2 --order=02 M",
    "run --elf=Q --ram-size=0 M",
    "run --elf=Q --ram-size=67108865 M",
    "run --elf=Q --ram-base=18446744073708503041 M",
    "run --elf=Q --ram-base=18446744073709551616 M",
    "synth",
    "synth 1",
    "synth 1 3 M",
    "synth 65536 1",
    "synth 0 0",
    "synth 0 4001",
    "synth -1 3",
    "synth 1 +3",
    "synth 0x1 3",
    "synth 1 3 --steps 5",
    "synth 340282366920938463463374607431768211456 1",
];

#[test]
fn words_ask_for_runs(rt: HostRuntime) -> Result<(), Fail> {
    let alloc = rt.alloc();
    for (text, want) in &RUNS {
        let words = words(alloc, text)?;
        assert!(rt;
            answer(alloc, words.as_slice())?.as_str() == *want,
            "{text}"
        );
    }
    Ok(())
}

#[test]
fn words_ask_for_checks(rt: HostRuntime) -> Result<(), Fail> {
    let alloc = rt.alloc();
    for (text, want) in &CHECKS {
        let words = words(alloc, text)?;
        assert!(rt;
            answer(alloc, words.as_slice())?.as_str() == *want,
            "{text}"
        );
    }
    Ok(())
}

#[test]
fn words_ask_for_what_is_made_of_a_seed(rt: HostRuntime) -> Result<(), Fail> {
    let alloc = rt.alloc();
    for (text, want) in &SYNTHS {
        let words = words(alloc, text)?;
        assert!(rt;
            answer(alloc, words.as_slice())?.as_str() == *want,
            "{text}"
        );
    }
    Ok(())
}

#[test]
fn other_words_are_refused(rt: HostRuntime) -> Result<(), Fail> {
    let alloc = rt.alloc();
    for text in &REFUSED {
        let words = words(alloc, text)?;
        assert!(rt;
            answer(alloc, words.as_slice())?.as_str() == "usage",
            "{text}"
        );
    }
    Ok(())
}

#[test]
fn sixty_four_models_are_asked_for(rt: HostRuntime) -> Result<(), Fail> {
    let alloc = rt.alloc();
    let mut words = vec![in alloc; "run", "--elf=Q"]?;
    for _ in 0..64 {
        words.push("M")?;
    }
    assert!(rt; answer(alloc, words.as_slice())?.len() > 128);
    words.push("M")?;
    assert!(rt; answer(alloc, words.as_slice())?.as_str() == "usage");
    Ok(())
}
