//! `kbfeed answer`: what a node answers to a query if its active release is the one of a file.
use crate::check::{file_name, open_list_file, report_file};
use crate::name_hints::{Advice, parse_meant_name};
use crate::query_hints::parse_meant_query;
use feed_answer::{Query, WriteFault, answer};
use feed_console::{Console, DONE, FAILED, REFUSED, Watched};
use feed_kbart::read_file;
use feed_names::ReleaseName;
use std::io::{Read, Write};

// A query, and the name of the release that answers it.
#[derive(Drop)]
struct NamedQuery {
    query: Query,
    name: ReleaseName,
}

/// Parses the query and then the name of the file, reads the file and prints the answer to `out`. The first fault is
/// reported, and then nothing is printed to `out`. Returns the exit status: 1 for an invalid query or name and for a
/// file that is bad or too long, 3 for a failing read or print and for running out of memory.
pub fn answer_file<O: Write, F: Write + Drop>(
    path: &str,
    query: &str,
    console: &mut Console<'_, O, F>,
) -> u8 {
    let question = match parse_named_query(file_name(path), query, console) {
        Ok(question) => question,
        Err(status) => return status,
    };
    match open_list_file(path, console) {
        Ok(file) => print_answer(path, &question, file, console),
        Err(status) => status,
    }
}

fn parse_named_query<O: Write, F: Write + Drop>(
    text: &str,
    query: &str,
    console: &mut Console<'_, O, F>,
) -> Result<NamedQuery, u8> {
    let query = parse_meant_query(query, console)?;
    let name = parse_meant_name(text, REFUSED, Advice::Rename, console)?;
    Ok(NamedQuery { query, name })
}

// Reads the file and prints the answer.
fn print_answer<R: Read + Drop, O: Write, F: Write + Drop>(
    path: &str,
    question: &NamedQuery,
    file: R,
    console: &mut Console<'_, O, F>,
) -> u8 {
    let mut file = Watched::new(file);
    let holdings = match read_file(console.rt.alloc(), &mut file) {
        Ok(holdings) => holdings,
        Err(fault) => return report_file(path, fault, file, console),
    };
    let Ok(answer) = answer(console.rt.alloc(), &holdings, &question.query) else {
        return console.faults.report("Memory", FAILED);
    };
    match answer.write(&mut console.out, &question.name) {
        Ok(()) => console.faults.check_print(console.out.flush(), DONE),
        Err(WriteFault::Write) => console.faults.report_unprinted(&mut console.out),
    }
}
