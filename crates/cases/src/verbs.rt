// The answer line of a case. Each area is a module that answers the verbs it knows; they are asked
// in turn.
use crate::case_words::Text;
use crate::output::Buffer;
use crate::{
    genotypes, infos, joining, leaves, lines, numbers, rows, sampling, spellings, turning, vectors,
};
use pieces::count::count_byte;

pub fn answer(case: &[u8], text: &mut Text, out: &mut Buffer) {
    match ask(case, text, out) {
        Some(()) => out.put(b'\n'),
        None => refuse(out),
    }
}

// What is no case gives None, and nothing is put.
fn ask(case: &[u8], text: &mut Text, out: &mut Buffer) -> Option<()> {
    // a case has a space for each argument
    let arguments = count_byte(case, b' ');
    leaves::answer(case, arguments, text, out)
        .or_else(|| lines::answer(case, arguments, text, out))
        .or_else(|| turning::answer(case, arguments, out))
        .or_else(|| joining::answer(case, arguments, text, out))
        .or_else(|| infos::answer(case, arguments, text, out))
        .or_else(|| sampling::answer(case, arguments, text, out))
        .or_else(|| genotypes::answer(case, arguments, text, out))
        .or_else(|| numbers::answer(case, arguments, out))
        .or_else(|| spellings::answer(case, arguments, out))
        .or_else(|| vectors::answer(case, arguments, text, out))
        .or_else(|| rows::answer(case, arguments, text, out))
}

// The answer line of what is no case.
pub fn refuse(out: &mut Buffer) {
    out.put_bytes(b"?\n");
}
