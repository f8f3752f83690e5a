//! Trees as text, as `menu[F=News[b@7 -s]] toolbar[c]`: each item with its title after `=`, its time after `@` (1 where
//! it has none), and its children in brackets. A folder begins with a capital letter, a separator with `-`, and each
//! other item is a bookmark.

use crate::words::{id_of, number};
use anyhow::bail;
use ss_record::{Item, Kind};
use ss_text::{Id, Ids, Stamp, Word};
use ss_tree::{Node, Tree};
use std::alloc::{AllocError, Global};

/// The first word of a line, and what comes after it.
pub fn cut(line: &str) -> (&str, &str) {
    match line.split_once(' ') {
        Some(both) => both,
        None => (line, ""),
    }
}

/// The ids of a line.
pub fn ids_of(alloc: Global, line: &str) -> anyhow::Result<Ids> {
    let mut ids = Vec::new(alloc);
    for word in line.split(' ') {
        if !word.is_empty() {
            ids.push(id_of(alloc, word)?)?;
        }
    }
    Ok(Ids::new(ids))
}

/// The item of an id, of this kind and with this content.
pub fn item(alloc: Global, id: Id, kind: Kind, content: &str) -> anyhow::Result<Item> {
    let content = Word::new(String::from_str(alloc, content)?);
    match Item::new(alloc, id, kind, content) {
        Ok(item) => Ok(item),
        Err(fault) => bail!("no item: {fault:?}"),
    }
}

/// Puts an item last under a node, and gives its node.
pub fn plant(
    alloc: Global,
    tree: &mut Tree,
    under: Node,
    item: Item,
    time: u64,
) -> anyhow::Result<Node> {
    match tree.insert(alloc, under, None, item, Stamp::clamp(time)) {
        Ok(node) => Ok(node),
        Err(fault) => bail!("not planted: {fault:?}"),
    }
}

/// The kind that a name tells.
fn kind_of(name: &str) -> Kind {
    match name.as_bytes().first() {
        Some(b'A'..=b'Z') => Kind::Folder,
        Some(b'-') => Kind::Separator,
        _ => Kind::Bookmark,
    }
}

/// The content of an item with a title, or without one.
fn content_of(alloc: Global, title: Option<&str>) -> Result<String, AllocError> {
    match title {
        Some(title) => format!(in alloc; "{{\"title\":\"{title}\"}}"),
        None => String::from_str(alloc, "{}"),
    }
}

/// What a word tells of an item: its name, its title and its time.
#[derive(Clone, Copy)]
struct Told<'a> {
    name: &'a str,
    title: Option<&'a str>,
    time: u64,
}

/// What a word tells.
fn read_word(word: &str) -> anyhow::Result<Told<'_>> {
    let (named, time) = match word.split_once('@') {
        Some((named, time)) => (named, number(time)?),
        None => (word, 1),
    };
    Ok(match named.split_once('=') {
        Some((name, title)) => Told {
            name,
            title: Some(title),
            time,
        },
        None => Told {
            name: named,
            title: None,
            time,
        },
    })
}

/// The item of a word, and its time.
pub fn item_of(alloc: Global, word: &str) -> anyhow::Result<(Item, u64)> {
    let told = read_word(word)?;
    let content = content_of(alloc, told.title)?;
    let id = id_of(alloc, told.name)?;
    let item = item(alloc, id, kind_of(told.name), content.as_str())?;
    Ok((item, told.time))
}

/// Puts the item of a word last under a node, and gives its node; a root is there already.
fn grow(alloc: Global, tree: &mut Tree, under: Node, word: &str) -> anyhow::Result<Node> {
    let told = read_word(word)?;
    if let Some(root) = tree.find(&id_of(alloc, told.name)?) {
        return Ok(root);
    }
    let (item, time) = item_of(alloc, word)?;
    plant(alloc, tree, under, item, time)
}

/// A tree as it is read.
#[derive(Drop)]
struct Reader {
    tree: Tree,
    /// The nodes whose brackets are open, without the last one.
    above: Vec<Node>,
    /// The node under which items are put.
    under: Node,
    /// The node of the last word.
    last: Node,
    word: String,
}

impl Reader {
    fn new(alloc: Global) -> anyhow::Result<Reader> {
        Ok(Reader {
            tree: Tree::new(alloc)?,
            above: Vec::new(alloc),
            under: Node::new(0),
            last: Node::new(0),
            word: String::new(alloc),
        })
    }

    /// Ends a word, and puts its item last under its folder.
    fn end_word(&mut self, alloc: Global) -> anyhow::Result<()> {
        if self.word.is_empty() {
            return Ok(());
        }
        self.last = grow(alloc, &mut self.tree, self.under, self.word.as_str())?;
        self.word.clear();
        Ok(())
    }

    fn take(&mut self, alloc: Global, c: char) -> anyhow::Result<()> {
        match c {
            ' ' => self.end_word(alloc),
            '[' => {
                self.end_word(alloc)?;
                self.above.push(self.under)?;
                self.under = self.last;
                Ok(())
            }
            ']' => {
                self.end_word(alloc)?;
                match self.above.pop() {
                    Some(node) => self.under = node,
                    None => bail!("no bracket is open"),
                }
                Ok(())
            }
            _ => Ok(self.word.push(c)?),
        }
    }

    /// Reads a text.
    fn read(&mut self, alloc: Global, text: &str) -> anyhow::Result<()> {
        for c in text.chars() {
            self.take(alloc, c)?;
        }
        self.end_word(alloc)
    }
}

/// The tree of a text.
pub fn read_tree(alloc: Global, text: &str) -> anyhow::Result<Tree> {
    let mut reader = Reader::new(alloc)?;
    reader.read(alloc, text)?;
    let Reader { tree, .. } = reader;
    Ok(tree)
}

/// Writes an item with its title.
fn push_item(line: &mut String, item: &Item) -> Result<(), AllocError> {
    line.push_str(item.id().as_str())?;
    let content = item.content().as_str();
    if let Some(rest) = content.strip_prefix("{\"title\":\"") {
        if let Some(title) = rest.strip_suffix("\"}") {
            line.push('=')?;
            line.push_str(title)?;
        }
    }
    Ok(())
}

/// Writes what stands between an item and the one before it, where the brackets of some nodes are open.
fn push_gap(line: &mut String, open: &mut Vec<Node>, parent: Node) -> Result<(), AllocError> {
    if !open.contains(&parent) {
        open.push(parent)?;
        if !line.is_empty() {
            line.push('[')?;
        }
        return Ok(());
    }
    for _ in 0..open.len() {
        if open.last() == Some(&parent) {
            break;
        }
        open.pop();
        line.push(']')?;
    }
    line.push(' ')
}

/// Writes a tree as it is read, without the times, from its walk.
pub fn tree_text(alloc: Global, tree: &Tree) -> Result<String, AllocError> {
    let mut line = String::new(alloc);
    let mut open = Vec::new(alloc);
    for node in &tree.walk(alloc)? {
        if let Some(parent) = tree.parent(*node) {
            push_gap(&mut line, &mut open, parent)?;
            push_item(&mut line, tree.item(*node))?;
        }
    }
    for _ in 1..open.len() {
        line.push(']')?;
    }
    Ok(line)
}
