// Each beginning of some bytes that spell a tree.

use crate::readers::refusal;
use std::alloc::Global;
use tx_doc::Form;
use tx_tree::ReadFault;

// The first length of a front that isn't refused as is wanted: those of these lengths are trees, the others unfinished.
fn first_wrong_front(alloc: Global, form: Form, bytes: &[u8], whole: &[usize]) -> Option<usize> {
    for length in 0..bytes.len() {
        let want = if whole.contains(&length) {
            None
        } else {
            Some(ReadFault::Unclosed(length))
        };
        if refusal(alloc, form, &bytes[..length]) != want {
            return Some(length);
        }
    }
    None
}

// 53 bytes, of which the last two are white.
const SCHEME: &[u8] = b" ( f\n\"<alpha>\\\"\\\\x\" (g-1(h) \"\" ( i\t\"<\\\"b>\" ) ) \"y\")\n ";

#[test]
fn beginnings_in_scheme(rt: HostRuntime) {
    assert_eq!(rt;
        first_wrong_front(rt.alloc(), Form::Scheme, SCHEME, &[51, 52]),
        None
    );
}

const TM: &[u8] =
    b"a\\<b\\|\\\\c\\> \\;\\P\\0\n\n<\\f|x\\\r\n  y|\\|><g|<#4a\\\nB>>\n\n<|f|z>\n<\\collection>\n<h>\n\
      </collection>\n<|f></f|<\\k></k>|>\\ \n";

// The length of the first beginning that neither spells a tree nor is unfinished.
fn first_refused(alloc: Global, form: Form, bytes: &[u8]) -> Option<usize> {
    for length in 0..bytes.len() {
        let fault = refusal(alloc, form, &bytes[..length]);
        if fault.is_some() && fault != Some(ReadFault::Unclosed(length)) {
            return Some(length);
        }
    }
    None
}

#[test]
fn beginnings_in_tm(rt: HostRuntime) {
    assert_eq!(rt; first_refused(rt.alloc(), Form::Tm, TM), None);
}

// A usual document.
const DOCUMENT: &[u8] = b"<TeXmacs|2.1>\n\n<style|generic>\n\n\
      <\\body>\n  <section|First steps>\n\n  An <em|important> note, \\Pquoted\\Q.\n\n  <\\itemize>\n    \
      <item>one\n\n    <item>two\n  </itemize>\n</body>\n\n\
      <\\initial>\n  <\\collection>\n    <associate|page-medium|paper>\n  </collection>\n</initial>\n";

// Whole are the empty document, those that end round the lines of the two short tags, after the body, and after the
// last tag.
const WHOLE: &[usize] = &[0, 13, 14, 15, 30, 31, 32, 166, 167, 168, 255];

#[test]
fn beginnings_of_a_document(rt: HostRuntime) {
    assert_eq!(rt;
        first_wrong_front(rt.alloc(), Form::Tm, DOCUMENT, WHOLE),
        None
    );
}

#[test]
fn the_whole_document(rt: HostRuntime) {
    assert!(rt; DOCUMENT.len() == 256 && refusal(rt.alloc(), Form::Tm, DOCUMENT).is_none());
}
