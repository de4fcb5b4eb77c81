//! The command that prints each value of the enums whose printed texts are part of the interface.
use crate::fault::ListsDriverFault;
use feed_answer::{Grade, QueryFault, WriteFault};
use feed_kbart::{BadFile, KbartFault, Label, Reason};
use feed_names::NameFault;
use std::alloc::{AllocError, Global};
use std::fmt::{Debug, Display};
use test_support::Out;

pub fn values(out: &mut Out<'_>, name: &str) -> Result<(), ListsDriverFault> {
    match name {
        "NameFault" => name_faults(out),
        "Label" => labels(out),
        "BadFile" => return bad_files(out),
        "KbartFault" => return kbart_faults(out),
        "Reason" => reasons(out),
        "QueryFault" => query_faults(out),
        "WriteFault" => write_faults(out),
        "Grade" => grades(out),
        _ => return Err(ListsDriverFault("not an enum")),
    }
    Ok(())
}

// Prints the place of a value among those of its enum, its name in the source, and its text.
fn print_value<T: Debug + Display + Drop>(out: &mut Out<'_>, place: u8, value: T) {
    out.print(format_args!("{place} {value:?}: {value}\n"));
}

fn name_faults(out: &mut Out<'_>) {
    for fault in &[
        NameFault::BadStem,
        NameFault::BadDate,
        NameFault::BadEnding,
        NameFault::Memory,
    ] {
        // Each match below names every value, so that a new value does not compile before it is in this file.
        let place = match *fault {
            NameFault::BadStem => 1,
            NameFault::BadDate => 2,
            NameFault::BadEnding => 3,
            NameFault::Memory => 4,
        };
        print_value(out, place, *fault);
    }
}

fn labels(out: &mut Out<'_>) {
    for place in 0..=u8::MAX {
        if let Some(label) = Label::of_place(place) {
            print_value(out, label.place(), label);
        }
    }
}

fn bad_files(out: &mut Out<'_>) -> Result<(), ListsDriverFault> {
    for bad in all_bad_files(out.rt.alloc())? {
        print_value(out, place_of_bad_file(bad), bad);
    }
    Ok(())
}

fn place_of_bad_file(bad: BadFile) -> u8 {
    match bad {
        BadFile::NotUtf8 => 1,
        BadFile::TwoMarks => 2,
        BadFile::NoHeader => 3,
        BadFile::MissingLabel(_) => 4,
        BadFile::LabelTwice(_) => 5,
    }
}

fn all_bad_files(alloc: Global) -> Result<Vec<BadFile>, AllocError> {
    let mut all = vec![in alloc; BadFile::NotUtf8, BadFile::TwoMarks, BadFile::NoHeader]?;
    for place in 0..=u8::MAX {
        if let Some(label) = Label::of_place(place) {
            all.push(BadFile::MissingLabel(label))?;
            all.push(BadFile::LabelTwice(label))?;
        }
    }
    Ok(all)
}

fn kbart_faults(out: &mut Out<'_>) -> Result<(), ListsDriverFault> {
    for bad in all_bad_files(out.rt.alloc())? {
        print_kbart_fault(out, KbartFault::Bad(bad));
    }
    for fault in [KbartFault::Memory, KbartFault::Read, KbartFault::TooLong] {
        print_kbart_fault(out, fault);
    }
    Ok(())
}

fn print_kbart_fault(out: &mut Out<'_>, fault: KbartFault) {
    let place = match fault {
        KbartFault::Bad(_) => 1,
        KbartFault::Memory => 2,
        KbartFault::Read => 3,
        KbartFault::TooLong => 4,
    };
    print_value(out, place, fault);
}

fn reasons(out: &mut Out<'_>) {
    for reason in &[
        Reason::OtherType,
        Reason::NoIssn,
        Reason::NoIsbn,
        Reason::BadDate,
        Reason::Reversed,
    ] {
        let place = match *reason {
            Reason::OtherType => 1,
            Reason::NoIssn => 2,
            Reason::NoIsbn => 3,
            Reason::BadDate => 4,
            Reason::Reversed => 5,
        };
        print_value(out, place, *reason);
    }
}

fn query_faults(out: &mut Out<'_>) {
    for fault in &[
        QueryFault::TooLong,
        QueryFault::Version,
        QueryFault::OtherFormat,
        QueryFault::NoIssn,
        QueryFault::NoIsbn,
        QueryFault::Memory,
    ] {
        let place = match *fault {
            QueryFault::TooLong => 1,
            QueryFault::Version => 2,
            QueryFault::OtherFormat => 3,
            QueryFault::NoIssn => 4,
            QueryFault::NoIsbn => 5,
            QueryFault::Memory => 6,
        };
        print_value(out, place, *fault);
    }
}

fn write_faults(out: &mut Out<'_>) {
    let place = match WriteFault::Write {
        WriteFault::Write => 1,
    };
    print_value(out, place, WriteFault::Write);
}

fn grades(out: &mut Out<'_>) {
    for grade in [Grade::Untested, Grade::Overlap, Grade::Inside] {
        let place = match grade {
            Grade::Untested => 1,
            Grade::Overlap => 2,
            Grade::Inside => 3,
        };
        print_value(out, place, grade);
    }
}
