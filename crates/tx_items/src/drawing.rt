// What is in a paragraph.
ghost use Rattle.std.specs.Prelude.{◌≡◌, ◌≤◌, ◌++◌, [], ℕ, length, map, IfOk, OnOk, MatchOption, Some, None};
ghost use Rattle.std.specs.Option.{option_copied};
ghost use Rattle.tx_tree.specs.declared.TheConstants.{MOST_TEXT};
ghost use Rattle.tx_text.specs.Clusters.{items_of, clusters_of};
ghost use Rattle.tx_text.specs.Places.{plain_cluster, plain_clusters};
ghost use Rattle.tx_items.specs.Drawing.{look_of, item_of, is_space, is_chance, paragraph};

use crate::attributes::Attrs;
use std::alloc::Global;
use std::marker::Model;
use std::rc::Rc;
use tx_base::Memory;
use tx_origin::{At, Ip};
use tx_text::{Cluster, clusters, plain_bytes, plain_cluster};
use tx_tree::Text;

// What the clusters of a text have in common.
#[derive(Drop)]
pub(crate) struct Source {
    // the origin of the text, or None where it has no place
    at: Option<Ip>,
    series: Text,
    shape: Text,
    color: Text,
}

/// Where a text comes from, and how it looks. All clusters of the text share it.
#[derive(Drop)]
pub struct Look {
    shared: Rc<Source>,
}

impl Model for Look {
    ghost use Rattle.tx_items.specs.Looks.{WideLook, coded_WideLook};

    ghost Value = { WideLook };

    ghost coded = { coded_WideLook };

    ghost use Rattle.tx_items.specs.LookView.{wide_look};

    ghost view = { λ l. wide_look l.shared.value };
}

/// A cluster, and how it looks.
#[derive(Drop)]
pub struct Drawn {
    pub cluster: Cluster,
    pub look: Look,
}

/// What is in a paragraph.
#[derive(Drop)]
pub enum Item {
    /// A cluster that is neither a space nor a chance.
    Glyph(Drawn),
    /// A cluster that shows as one space.
    Space(Drawn),
    /// A cluster that shows as a zero-width space (U+200B) alone. It takes no cell, and a line may end after it.
    Chance(Drawn),
    /// So many free cells, which are part of a word.
    Gap(u32),
    /// The line ends here.
    Break,
    /// The page ends here.
    PageEnd,
    /// The line ends here, and so many empty ones follow, at most 500.
    Down(u32),
}

/// The items of a paragraph. Contracts see their list. Its lines may share them.
#[derive(Drop)]
pub struct Items {
    kept: Rc<Vec<Item>>,
}

impl Model for Items {
    ghost use Rattle.std.specs.Prelude.{List};
    ghost use Rattle.tx_items.specs.declared.drawing.Item.{Item};

    ghost Value = { List Item };

    ghost view = { λ i. i.kept.value.items };
}

/// A paragraph, with the attributes at its first item, or at its end where it has no items. Lengths are in
/// thousandths of a cell.
#[derive(Drop)]
pub struct Paragraph {
    pub items: Items,
    /// `par-mode`.
    pub mode: Text,
    /// `par-left`.
    pub left: i64,
    /// `par-right`.
    pub right: i64,
    /// `par-first`.
    pub first: i64,
}

/// An error that is shown.
#[derive(Drop)]
pub struct ErrorAt {
    pub kind: Text,
    /// More about it, or the empty text.
    pub detail: Text,
}

impl Look {
    // How a text with this origin looks.
    pub(crate) fn new(alloc: Global, at: Option<&Ip>, attrs: &Attrs) -> Result<Look, Memory>
        ensures { IfOk result (λ l. l ≡ look_of attrs.now (option_copied at.entry)) }
    {
        let own = match at {
            Some(origin) => Some(origin.share()?),
            None => None,
        };
        let source = Source {
            at: own,
            series: attrs.series.copy()?,
            shape: attrs.shape.copy()?,
            color: attrs.color.copy()?,
        };
        Ok(Look {
            shared: Rc::new(alloc, source)?,
        })
    }

    /// A share of the look.
    pub fn share(&self) -> Result<Look, Memory>
        ensures { IfOk result (λ l. l ≡ self.now) }
    {
        Ok(Look {
            shared: self.shared.clone()?,
        })
    }

    /// The origin of the text, or None where it has no place.
    pub fn origin(&self) -> Option<&Ip>
        ensures { MatchOption result (self.now.at ≡ None) (λ p. self.now.at ≡ Some p.now) }
    {
        self.shared.at.as_ref()
    }

    /// `font-series`.
    pub fn series(&self) -> &Text
        ensures { result.now ≡ self.now.series }
    {
        &self.shared.series
    }

    /// `font-shape`.
    pub fn shape(&self) -> &Text
        ensures { result.now ≡ self.now.shape }
    {
        &self.shared.shape
    }

    /// `color`.
    pub fn color(&self) -> &Text
        ensures { result.now ≡ self.now.color }
    {
        &self.shared.color
    }
}

impl Item {
    /// A copy of the item.
    pub fn copy(&self) -> Result<Item, Memory>
        ensures { IfOk result (λ i. i ≡ self.now) }
    {
        match self {
            Item::Glyph(drawn) => Ok(Item::Glyph(drawn.copy()?)),
            Item::Space(drawn) => Ok(Item::Space(drawn.copy()?)),
            Item::Chance(drawn) => Ok(Item::Chance(drawn.copy()?)),
            Item::Gap(cells) => Ok(Item::Gap(*cells)),
            Item::Break => Ok(Item::Break),
            Item::PageEnd => Ok(Item::PageEnd),
            Item::Down(count) => Ok(Item::Down(*count)),
        }
    }
}

impl Drawn {
    /// A copy of the cluster, with its look.
    pub fn copy(&self) -> Result<Drawn, Memory>
        ensures { IfOk result (λ d. d ≡ self.now) }
    {
        Ok(Drawn {
            cluster: self.cluster.copy()?,
            look: self.look.share()?,
        })
    }

    /// Where the cluster begins: the origin of its text, and its start there. None where the text has no place.
    pub fn at(&self) -> Result<Option<At>, Memory>
        ensures { IfOk result (λ at. MatchOption at (self.now.look.at ≡ None)
            (λ a. (self.now.look.at ≡ Some a.origin) × (a.offset ≡ self.now.cluster.start))) }
    {
        let Some(origin) = self.look.origin() else {
            return Ok(None);
        };
        Ok(Some(At::new(origin.share()?, self.cluster.start)))
    }
}

impl Items {
    /// These items, in memory of their own size.
    pub fn new(alloc: Global, mut kept: Vec<Item>) -> Result<Items, Memory>
        ensures { IfOk result (λ i. i ≡ kept.items) }
    {
        kept.shrink_to_fit();
        Ok(Items {
            kept: Rc::new(alloc, kept)?,
        })
    }

    /// A share of the items.
    pub fn share(&self) -> Result<Items, Memory>
        ensures { IfOk result (λ i. i ≡ self.now) }
    {
        Ok(Items {
            kept: self.kept.clone()?,
        })
    }

    /// The items.
    pub fn all(&self) -> &[Item]
        ensures { result.now ≡ self.now }
    {
        &self.kept
    }
}

impl Paragraph {
    /// The paragraph without an item, with these attributes.
    pub fn blank(alloc: Global, attrs: &Attrs) -> Result<Paragraph, Memory>
        ensures { IfOk result (λ p. p ≡ paragraph [] attrs.now) }
    {
        Paragraph::new(alloc, Vec::new(alloc), attrs)
    }

    /// A share of the paragraph, which shares its items.
    pub fn share(&self) -> Result<Paragraph, Memory>
        ensures { IfOk result (λ p. p ≡ self.now) }
    {
        Ok(Paragraph {
            items: self.items.share()?,
            mode: self.mode.copy()?,
            left: self.left,
            right: self.right,
            first: self.first,
        })
    }

    // The paragraph of these items, with these attributes.
    pub(crate) fn new(alloc: Global, items: Vec<Item>, attrs: &Attrs) -> Result<Paragraph, Memory>
        ensures { IfOk result (λ p. p ≡ paragraph items.items attrs.now) }
    {
        Ok(Paragraph {
            items: Items::new(alloc, items)?,
            mode: attrs.mode.copy()?,
            left: attrs.left,
            right: attrs.right,
            first: attrs.first,
        })
    }
}

// A cluster as an item.
fn item_of(cluster: &Cluster, look: &Look) -> Result<Item, Memory>
    ensures { IfOk result (λ i. i ≡ item_of look.now cluster.now) }
{
    let drawn = Drawn {
        cluster: cluster.copy()?,
        look: look.share()?,
    };
    if is_space(cluster) {
        Ok(Item::Space(drawn))
    } else if is_chance(cluster) {
        Ok(Item::Chance(drawn))
    } else {
        Ok(Item::Glyph(drawn))
    }
}

// Whether the cluster shows as one space.
fn is_space(cluster: &Cluster) -> bool
    ensures { result ≡ is_space cluster.now.glyphs }
{
    cluster.glyphs.bytes() == b" ".as_slice()
}

// Whether the cluster shows as a zero-width space.
fn is_chance(cluster: &Cluster) -> bool
    ensures { result ≡ is_chance cluster.now.glyphs }
{
    cluster.glyphs.bytes() == b"\xe2\x80\x8b".as_slice()
}

// Adds clusters that look alike.
fn push_clusters(items: &mut Vec<Item>, clusters: &[Cluster], look: &Look) -> Result<(), Memory>
    ensures { OnOk result (items.new.items ≡ items.old.items ++ map (item_of look.now) clusters.now) }
{
    items.reserve(clusters.len())?;
    for cluster in clusters {
        items.push(item_of(cluster, look)?)?;
    }
    Ok(())
}

// A byte that is a cluster alone, at a place, as an item.
fn plain_item(byte: u8, at: u32, look: &Look) -> Result<Item, Memory>
    ensures { IfOk result (λ i. i ≡ item_of look.now (plain_cluster at byte)) }
{
    let drawn = Drawn {
        cluster: plain_cluster(byte, at),
        look: look.share()?,
    };
    if byte == b' ' {
        Ok(Item::Space(drawn))
    } else {
        Ok(Item::Glyph(drawn))
    }
}

// Adds bytes that are a cluster each and look alike.
fn push_plain(items: &mut Vec<Item>, bytes: &[u8], look: &Look) -> Result<(), Memory>
    requires { length bytes.now ≤ MOST_TEXT }
    ensures { OnOk result (items.new.items
        ≡ items.old.items ++ map (item_of look.now) (plain_clusters 0 bytes.now)) }
{
    items.reserve(bytes.len())?;
    for (at, byte) in bytes.iter().enumerate() {
        items.push(plain_item(*byte, at as u32, look)?)?;
    }
    Ok(())
}

// Adds the clusters of a text, which look alike.
pub(crate) fn push_text(
    alloc: Global,
    items: &mut Vec<Item>,
    text: &Text,
    look: &Look,
) -> Result<(), Memory>
    ensures { OnOk result (items.new.items
        ≡ items.old.items ++ map (item_of look.now) (clusters_of (items_of text.now))) }
{
    match plain_bytes(text) {
        Some(bytes) => push_plain(items, bytes, look),
        None => push_clusters(items, &clusters(alloc, text)?, look),
    }
}
