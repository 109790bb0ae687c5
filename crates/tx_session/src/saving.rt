// The file of a tree, and saving it.
ghost use Rattle.std.specs.Prelude.{◌≡◌, ◌≢◌, ◌⊎◌, ◌∷◌, ◌++◌, ℕ, List, [], Option, true, length, IfOk, Some, None};
ghost use Rattle.tx_outside.specs.Files.{Files, file_of};
ghost use Rattle.tx_outside.specs.Outside.{StoreGoesOn, StoreSeen};
ghost use Rattle.tx_session.specs.Forms.{has_text_in, saving, form_text, SpellsAloneIn, writes};
ghost use Rattle.tx_print.specs.Lines.{line};
ghost use Rattle.tx_words.specs.Names.{buffer_name};
ghost use Rattle.tx_words.specs.Words.{Ask, named_file};
ghost use Rattle.tx_words.specs.declared.asked.Source.TheVariants.{Files as AllFiles};
ghost use Rattle.tx_open.specs.declared.opening.Opened.{Opened};
ghost use Rattle.tx_open.specs.Outcomes.{OpenOutcome, opened, ComesTo, IsDecided, IsTreeOfFile};
ghost use Rattle.tx_session.specs.Saves.{IsKeepReply, IsSaveReply};
ghost use Rattle.tx_session.specs.States.{file_saved, selected_tree};
ghost use Rattle.tx_session.specs.Worlds.{World, LineMark, plain};
ghost use Rattle.tx_session.specs.Savings.{IsSavedAlone, IsNotSaved, StandsAmong};
ghost use Rattle.tx_session.specs.Scripts.{Answered, command_line};
ghost use Rattle.tx_session.specs.Replies.{command, IsLineRead, IsLineReply};
ghost use Rattle.tx_session.specs.Runs.{start_with};
ghost use Rattle.tx_cmd.specs.declared.command.Command.{Command};
ghost use Rattle.tx_tree.specs.WideTree.{WideTree};
ghost use Rattle.tx_tree.specs.Limits.{IsWellFormed, IsWithinLimits};
ghost use Rattle.tx_doc.specs.Forms.{form_of};
ghost use Rattle.tx_doc.specs.Modern.{modern};
ghost use Rattle.tx_doc.specs.declared.forms.Form.{Form as Syntax};

use crate::replies::{Reply, numbered};
use std::alloc::Global;
use tx_base::Memory;
use tx_doc::{Form, form_of};
use tx_open::one_outcome;
use tx_outside::{MOST_FILE, SaveFault, Store};
use tx_tm_write::is_block;
use tx_tree::Tree;

// Whether the tree has a text in this form.
fn has_text_in(form: Form, tree: &Tree) -> bool
    ensures { result ≡ has_text_in form tree.now }
{
    match form {
        Form::Scheme => true,
        Form::Tm => is_block(tree),
    }
}

// How many bytes the tree's file has.
#[tactic(auto, using(std::proofs::lemmas::Grind::common_steps))]
fn file_length(form: Form, tree: &Tree) -> u64
    requires { has_text_in form tree.now ≡ true }
    ensures { result ≡ length (line (form_text form tree.now)) }
{
    match form {
        Form::Scheme => tx_scm::length(tree) + 1,
        Form::Tm => tx_tm_write::length(tree) + 1,
    }
}

// The bytes of the tree's file.
fn file_bytes(alloc: Global, form: Form, tree: &Tree) -> Result<Vec<u8>, Memory>
    requires { has_text_in form tree.now ≡ true }
    ensures { IfOk result (λ bytes. bytes.items ≡ line (form_text form tree.now)) }
{
    let mut bytes = Vec::new(alloc);
    match form {
        Form::Scheme => tx_scm::write(tree, &mut bytes)?,
        Form::Tm => tx_tm_write::write(tree, &mut bytes)?,
    }
    bytes.push(b'\n')?;
    Ok(bytes)
}

/// Saves the tree in the file of this name, in the form that the name says.
pub(crate) fn save<S: Store>(alloc: Global, tree: &Tree, name: &[u8], store: &mut S) -> Reply
    ensures saved { IsSaveReply name.now tree.now result (S.seen store.old) (S.seen store.new) }
    ensures store_goes_on { StoreGoesOn (S.seen store.old) (S.seen store.new) }
    ensures store_untouched { file_saved name.now (saving (form_of name.now) tree.now) ≡ None → store.new ≡ store.old }
{
    let form = form_of(name);
    if !has_text_in(form, tree) {
        return Reply::Fixed(b"no form\n");
    }
    let count = file_length(form, tree);
    if count > MOST_FILE as u64 {
        return numbered(alloc, "no file-long ", count);
    }
    let reply = numbered(alloc, "saved ", count);
    match file_bytes(alloc, form, tree) {
        Ok(bytes) => keep(name, &bytes, reply, store),
        Err(Memory) => Reply::Wanting,
    }
}

// Stores the bytes, and returns this reply unless the store fails or memory ran out.
#[tactic(auto, using(crate::proofs::Saved::keeps_given, std::proofs::lemmas::Grind::common_steps))]
fn keep<S: Store>(name: &[u8], bytes: &[u8], reply: Reply, store: &mut S) -> Reply
    requires { reply ≢ Reply.Unsaved }
    ensures kept { IsKeepReply name.now bytes.now reply result (S.seen store.old) (S.seen store.new) }
    ensures store_goes_on { StoreGoesOn (S.seen store.old) (S.seen store.new) }
{
    if let Reply::Wanting = reply {
        return Reply::Wanting;
    }
    match store.save(name, bytes) {
        Ok(()) => reply,
        Err(SaveFault::Failed) => Reply::Unsaved,
        Err(SaveFault::Memory) => Reply::Wanting,
    }
}

/// A law: what is saved spells the tree that was saved, and no other, in the form that the name says.
pub fn saved_spells_alone()
    ensures { (form : Syntax) (t : WideTree) (bytes : List ℕ) → IsWellFormed t → saving form t ≡ writes bytes
        → SpellsAloneIn form bytes t }
{}

/// A law: a file that was saved within the limits opens again. `read`: wherever it is among the files that are opened,
/// it is read as the tree that was saved, and as no other. `alone`: words that ask for it alone open the modern form of
/// that tree under the file's name, unless the store fails or memory runs out. That is the tree itself unless it is an
/// old document with calls (`tx_doc::modern_law`), which only an edit makes of what was opened.
pub fn saved_opens_again()
    ensures read { (told : Files) (word bytes : List ℕ) (t : WideTree) → IsWellFormed t → IsWithinLimits t
        → saving (form_of word) t ≡ writes bytes → file_of told word ≡ Some bytes
        → IsTreeOfFile (Some told) word t × ((u : WideTree) → IsTreeOfFile (Some told) word u → u ≡ t) }
    ensures alone { (words : List (List ℕ)) (told : Files) (width height : ℕ) (word bytes : List ℕ) (t : WideTree)
        (o : OpenOutcome) → IsWellFormed t → IsWithinLimits t → saving (form_of word) t ≡ writes bytes
        → Ask words width height (AllFiles (named_file word ∷ [])) → file_of told word ≡ Some bytes
        → ComesTo words (Some told) o → IsDecided o → o ≡ opened (record {
          width = width;
          height = height;
          buffers = record { name = buffer_name word; tree = modern t } ∷ [];
        }) }
{
    one_outcome();
}

/// A law: what the lines `save` of a session leave, whatever its lines are. `among`: each of the lines that were
/// executed has its place among them. `saved`: in a session of files that were opened, a line `save` at which neither
/// memory nor the store failed leaves a file that spells the selected buffer's present tree and no other, or the store
/// as it was, with the reason.
pub fn saved_in_a_session()
    ensures among { (start : World) (before : List (List ℕ)) (one : List ℕ) (behind : List (List ℕ))
        (marks : List LineMark) (last : World) (text : List ℕ)
        → Answered start (before ++ one ∷ behind) marks last text
        → StandsAmong start before one behind marks last text }
    ensures saved { (words : List (List ℕ)) (files : Option Files) (all : Opened) (first : StoreSeen) (steps : ℕ) →
        ComesTo words files (opened all) →
        (lines : List (List ℕ)) (marks : List LineMark) (seen : World) (done : List ℕ) →
        Answered (start_with all first steps) lines marks seen done →
        (one name reply : List ℕ) (next : World) → IsLineRead (command_line one) (command (Command.Save name)) →
        IsLineReply seen (command_line one) plain next reply →
        IsSavedAlone name (selected_tree seen.session.seen.state) seen.store next.store reply
        ⊎ IsNotSaved seen.store next.store reply }
{}
