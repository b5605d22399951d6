use crate::answers::{answer_over, file};
use sail_rows::shipped_models::{RV32_BEGIN, RV32_END, RV32A, RV32I, RV32M};
use sail_rows::shipped_rv64::{RV64_BEGIN, RV64A, RV64I, RV64M};
use sail_rows::{riscv_rows, stops_rows};
use std::alloc::{AllocError, Global};
use std::process::Abort;
use std::test::Fail;

const RV32IMA: &[&str] = &[RV32_BEGIN, RV32I, RV32M, RV32A, RV32_END];

const RV64IMA: &[&str] = &[
    RV64_BEGIN, RV32I, RV64I, RV32M, RV64M, RV32A, RV64A, RV32_END,
];

// Orders of four harts; not all of them have each.
const ORDERS: [&str; 10] = [
    "0123",
    "3210",
    "0",
    "3",
    "01",
    "0011223",
    "0123012",
    "00000001",
    "2222333301",
    "0312",
];

// The model of these texts.
fn model(alloc: Global, texts: &[&str]) -> Result<Vec<u8>, AllocError> {
    let mut model = Vec::new(alloc);
    for text in texts {
        model.extend_from_slice(text.as_bytes())?;
    }
    Ok(model)
}

// A text between two others.
fn between(alloc: Global, front: &str, text: &str, end: &str) -> Result<String, AllocError> {
    let mut all = String::from_str(alloc, front)?;
    all.push_str(text)?;
    all.push_str(end)?;
    Ok(all)
}

// What is written for a run of a program, in hexadecimal digits, on a machine of these texts, the status first.
fn ran(alloc: Global, machine: &[&str], program: &str, options: &str) -> Result<Vec<u8>, Fail> {
    let line = between(alloc, "run --elf I --steps 20000", options, " M")?;
    let mut files = Vec::new(alloc);
    files.push(file(alloc, "M", model(alloc, machine)?)?)?;
    files.push(file(alloc, "I", hex::decode(alloc, program)?)?)?;
    let fails = (Vec::new(alloc), Vec::new(alloc));
    answer_over(alloc, line.as_str(), files, fails, 1_000_000)
}

// Each program of a table is answered with what it writes first, and this end behind it.
fn all_ran(
    rt: &impl Abort,
    alloc: Global,
    machine: &[&str],
    table: &[(&str, &str)],
    options: &str,
    end: &str,
) -> Result<(), Fail> {
    for (program, first) in table {
        let written = ran(alloc, machine, program, options)?;
        let wanted = between(alloc, "0 ", first, end)?;
        assert!(rt;
            written.as_slice().starts_with(wanted.as_bytes()),
            "{options} {first}"
        );
    }
    Ok(())
}

// So it is on four harts, whatever their order.
fn all_ran_on_harts(
    rt: &impl Abort,
    alloc: Global,
    machine: &[&str],
    table: &[(&str, &str)],
) -> Result<(), Fail> {
    for order in ORDERS {
        let options = between(alloc, " --harts 4 --order ", order, "")?;
        all_ran(rt, alloc, machine, table, options.as_str(), "== report\n")?;
    }
    Ok(())
}

const RESTS: &str = "== report\nstop all-rest\n";

#[test]
fn programs_run_on_rv32(rt: HostRuntime) -> Result<(), Fail> {
    let table = riscv_rows::PROGRAMS_32;
    all_ran(&rt, rt.alloc(), RV32IMA, table, "", RESTS)
}

#[test]
fn programs_run_on_rv64(rt: HostRuntime) -> Result<(), Fail> {
    let table = riscv_rows::PROGRAMS_64;
    all_ran(&rt, rt.alloc(), RV64IMA, table, "", RESTS)
}

#[test]
fn runs_stop_on_rv32(rt: HostRuntime) -> Result<(), Fail> {
    all_ran(&rt, rt.alloc(), RV32IMA, stops_rows::STOPS, "", "")
}

#[test]
fn runs_stop_on_rv64(rt: HostRuntime) -> Result<(), Fail> {
    all_ran(&rt, rt.alloc(), RV64IMA, stops_rows::STOPS, "", "")
}

#[test]
fn whole_reports_are_written(rt: HostRuntime) -> Result<(), Fail> {
    let alloc = rt.alloc();
    let rows = [
        (RV32IMA, stops_rows::REPORT_32),
        (RV64IMA, stops_rows::REPORT_64),
    ];
    for (machine, wanted) in rows {
        let written = ran(alloc, machine, stops_rows::SHORT, "")?;
        assert!(rt; written.as_slice() == wanted.as_bytes());
    }
    Ok(())
}

#[test]
fn programs_of_another_machine_are_refused(rt: HostRuntime) -> Result<(), Fail> {
    let alloc = rt.alloc();
    for machine in [RV32IMA, RV64IMA] {
        let written = ran(alloc, machine, stops_rows::OTHER_MACHINE, "")?;
        assert!(rt; written.as_slice() == "6 E7\n".as_bytes());
    }
    Ok(())
}

#[test]
fn harts_run_in_any_order_on_rv32(rt: HostRuntime) -> Result<(), Fail> {
    all_ran_on_harts(&rt, rt.alloc(), RV32IMA, riscv_rows::HARTS_32)
}

#[test]
fn harts_run_in_any_order_on_rv64(rt: HostRuntime) -> Result<(), Fail> {
    all_ran_on_harts(&rt, rt.alloc(), RV64IMA, riscv_rows::HARTS_64)
}
