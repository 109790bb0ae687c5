// The clusters of a text.
ghost use Rattle.std.specs.Prelude.{◌≡◌, ℕ, ◌+◌, ◌≤◌, ◌<◌, ◌++◌, List, length, map, true, All, replicate};
ghost use Rattle.std.specs.Prelude.{IfOk, OnOk, IfSome};
ghost use Rattle.std.specs.Prelude.{string_bytes};
ghost use Rattle.std.specs.List.{AllByRecursion, list_all, flat_map};
ghost use Rattle.tx_tree.specs.declared.TheConstants.{MOST_TEXT};
ghost use Rattle.tx_tree.specs.Texts.{Item, IsItem, item_bytes, byte as Byte, symbol as Symbol};
ghost use Rattle.unicode_segmentation.specs.Grapheme.{graphemes};
ghost use Rattle.unicode_segmentation.specs.Segments.{with_offsets};
ghost use Rattle.tx_text.specs.Displays.{item_text, display_text};
ghost use Rattle.tx_text.specs.Clusters.{items_of, clusters_of, HoldsByte, item_start, item_end};
ghost use Rattle.tx_text.specs.Places.{spread, cluster_at, is_plain_byte, plain_cluster, plain_clusters};

use crate::displays::{push_byte, push_symbol};
use crate::glyphs::Glyphs;
use std::alloc::Global;
use tx_base::Memory;
use tx_tree::Text;
use unicode_segmentation::UnicodeSegmentation;
use unicode_width::UnicodeWidthStr;

/// An extended grapheme cluster of the display text of a text.
#[derive(Drop)]
pub struct Cluster {
    /// Its characters.
    pub glyphs: Glyphs,
    /// Its width in cells, at most 2.
    pub cells: u8,
    /// The byte of the text at which the first item begins that has a character in it.
    pub start: u32,
    /// The bytes from there to the end of the last such item.
    pub len: u32,
}

impl Cluster {
    /// A copy of the cluster.
    pub fn copy(&self) -> Result<Cluster, Memory>
        ensures { IfOk result (λ c. c ≡ self.now) }
    {
        Ok(Cluster {
            glyphs: self.glyphs.copy()?,
            cells: self.cells,
            start: self.start,
            len: self.len,
        })
    }
}

// A part of a text, by byte places.
#[derive(Clone, Copy)]
struct Stretch {
    // Where it begins.
    from: u32,
    // Where it ends.
    to: u32,
}

// A display text, and for each of its bytes the place of that byte's item in the text.
#[derive(Drop)]
struct DisplayText {
    text: String,
    places: Vec<Stretch>,
}

impl DisplayText {
    // Adds the display text of the byte at this place.
    fn add_byte(&mut self, byte: u8, here: Stretch) -> Result<(), Memory>
        requires { length self.old.places.items ≡ length (string_bytes self.old.text) }
        ensures text { OnOk result (string_bytes self.new.text ≡ string_bytes self.old.text ++ item_text (Byte byte)) }
        ensures places { OnOk result (self.new.places.items
            ≡ self.old.places.items ++ replicate (length (item_text (Byte byte))) here) }
    {
        push_byte(&mut self.text, byte)?;
        self.places.resize(self.text.len(), here)?;
        Ok(())
    }

    // Adds the display text of the symbol at this place.
    fn add_symbol(&mut self, name: &[u8], here: Stretch) -> Result<(), Memory>
        requires { length self.old.places.items ≡ length (string_bytes self.old.text) }
        ensures text { OnOk result (string_bytes self.new.text
            ≡ string_bytes self.old.text ++ item_text (Symbol name.now)) }
        ensures places { OnOk result (self.new.places.items
            ≡ self.old.places.items ++ replicate (length (item_text (Symbol name.now))) here) }
    {
        push_symbol(&mut self.text, name)?;
        self.places.resize(self.text.len(), here)?;
        Ok(())
    }
}

// The display text of a text's bytes.
fn display_of(alloc: Global, bytes: &[u8]) -> Result<DisplayText, Memory>
    requires { length bytes.now ≤ MOST_TEXT }
    ensures text { IfOk result (λ d. string_bytes d.text ≡ display_text (items_of bytes.now)) }
    ensures places { IfOk result (λ d. d.places.items ≡ spread 0 (items_of bytes.now)) }
    ensures long { IfOk result (λ d. length d.places.items ≡ length (string_bytes d.text)) }
{
    let mut display = DisplayText {
        text: String::new(alloc),
        places: Vec::new(alloc),
    };
    let mut from = 0;
    let mut in_symbol = false;
    for (at, byte) in bytes.iter().enumerate() {
        let here = Stretch {
            from: from as u32,
            to: at as u32 + 1,
        };
        match (in_symbol, *byte) {
            (true, b'>') => {
                display.add_symbol(&bytes[from + 1..at], here)?;
                from = at + 1;
                in_symbol = false;
            }
            (true, _) => {}
            (false, b'<') => in_symbol = true,
            (false, other) => {
                display.add_byte(other, here)?;
                from = at + 1;
            }
        }
    }
    Ok(display)
}

// The cluster of these glyphs, which begin at a byte of the display text.
fn cluster_at(alloc: Global, places: &[Stretch], at: usize, glyphs: &str) -> Result<Cluster, Memory>
    requires some { 0 < length glyphs.now }
    requires within { at + length glyphs.now ≤ length places.now }
    ensures { IfOk result (λ c. c ≡ cluster_at places.now (at, glyphs.now)) }
{
    let first = places[at];
    let last = places[at + glyphs.len() - 1];
    let cells = glyphs.width().min(2);
    Ok(Cluster {
        glyphs: Glyphs::new(alloc, glyphs.as_bytes())?,
        cells: cells as u8,
        start: first.from,
        len: last.to.saturating_sub(first.from),
    })
}

// The clusters of a display text whose bytes come from these places.
fn cut_display(alloc: Global, display: &str, places: &[Stretch]) -> Result<Vec<Cluster>, Memory>
    requires { length display.now ≤ length places.now }
    ensures { IfOk result (λ found. found.items
        ≡ map (cluster_at places.now) (with_offsets 0 (graphemes true display.now))) }
{
    let mut found = Vec::new(alloc);
    for (at, glyphs) in display.grapheme_indices(true) {
        found.push(cluster_at(alloc, places, at, glyphs)?)?;
    }
    Ok(found)
}

// Whether each byte shows as itself, as a cluster of its own.
fn is_plain(bytes: &[u8]) -> bool
    ensures { result ≡ list_all is_plain_byte bytes.now }
{
    bytes
        .iter()
        .all(|byte| matches!(*byte, b' '..=b'~') && *byte != b'<')
}

/// The cluster of a byte at a place, among those of [`plain_bytes`].
pub fn plain_cluster(byte: u8, at: u32) -> Cluster
    ensures { result ≡ plain_cluster at byte }
{
    Cluster {
        glyphs: Glyphs::of_byte(byte),
        cells: 1,
        start: at,
        len: 1,
    }
}

// The clusters of such bytes.
fn plain_clusters(alloc: Global, bytes: &[u8]) -> Result<Vec<Cluster>, Memory>
    requires { length bytes.now ≤ MOST_TEXT }
    ensures { IfOk result (λ found. found.items ≡ plain_clusters 0 bytes.now) }
{
    let mut found = Vec::with_capacity(alloc, bytes.len())?;
    for (at, byte) in bytes.iter().enumerate() {
        found.push(plain_cluster(*byte, at as u32))?;
    }
    Ok(found)
}

/// The bytes of a text of visible ASCII and spaces without a symbol: each is a cluster alone, which [`plain_cluster`]
/// gives. None for other texts.
pub fn plain_bytes(text: &Text) -> Option<&[u8]>
    ensures bytes { IfSome result (λ bytes. bytes.now ≡ text.now) }
    ensures short { IfSome result (λ bytes. length bytes.now ≤ MOST_TEXT) }
    ensures clusters { IfSome result (λ bytes. clusters_of (items_of text.now) ≡ plain_clusters 0 bytes.now) }
{
    let bytes = text.bytes();
    if is_plain(bytes) {
        return Some(bytes);
    }
    None
}

/// The clusters of a text, in order: the extended grapheme clusters of its display text. Their characters in order are
/// the display text. The one error is `Memory`.
pub fn clusters(alloc: Global, text: &Text) -> Result<Vec<Cluster>, Memory>
    ensures clusters { IfOk result (λ found. found.items ≡ clusters_of (items_of text.now)) }
    ensures whole { IfOk result (λ found. flat_map (λ cluster. cluster.glyphs) found.items
        ≡ display_text (items_of text.now)) }
    ensures narrow { IfOk result (λ found. All (λ cluster. cluster.cells ≤ 2) found.items) }
{
    let bytes = text.bytes();
    if is_plain(bytes) {
        return plain_clusters(alloc, bytes);
    }
    let display = display_of(alloc, bytes)?;
    cut_display(alloc, display.text.as_str(), &display.places)
}

/// What the definition of clusters rests on: the items of the bytes that items spell are these items, and the two
/// places that a byte of their display text has in the text are those of the one item that it is a byte of.
pub fn cluster_laws()
    ensures items { (items : List Item) → AllByRecursion IsItem items → items_of (flat_map item_bytes items) ≡ items }
    ensures places { (items : List Item) (n : ℕ) → n < length (display_text items)
        → HoldsByte items n (item_start 0 items n) (item_end 0 items n) }
{}
