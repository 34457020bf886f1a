//! Lines of scenes that are done for each item of a list, written out.
//!
//! - `each ITEM, ITEM, ..`: the lines from here to `end` are done for each of the items, one after
//!   the other. In them `{}` is the item, `{1}`, `{2}`, .. are its words, and `{2+}` is all from
//!   the second on.
//! - `cuts TEXT`: the same for each beginning of the text, from its first letter to all of it.
//! - `part NAME`: the lines from here to `end` are done at each line `do NAME ITEM, ITEM, ..`, for
//!   each of the items, or once without an item. Within open lines, `do` adds to these lines.
//! - `again ITEM, ITEM, ..`: the lines up to the last `end` are done for each of the items.
//!
//! If an `end` or a part is missing, a step that does not hold is written in place of the lines.
use super::programs::PARTS;
use std::alloc::{AllocError, Global};
use std::mem;
use std::test::Fail;

/// The lines that are written out already, the parts, and the open lines with their name and their
/// items. The name is empty if they have none.
#[derive(Drop)]
struct Sheet {
    alloc: Global,
    text: String,
    parts: Vec<(String, String)>,
    name: String,
    lines: String,
    items: Vec<String>,
    is_open: bool,
}

/// Returns the scenes with all such lines written out.
pub(crate) fn written_out(alloc: Global, scenes: &str) -> Result<String, AllocError> {
    let mut sheet = Sheet {
        alloc,
        text: String::new(alloc),
        parts: Vec::new(alloc),
        name: String::new(alloc),
        lines: String::new(alloc),
        items: Vec::new(alloc),
        is_open: false,
    };
    for text in [PARTS, scenes] {
        for line in text.lines() {
            sheet.add(line)?;
        }
    }
    if sheet.is_open {
        sheet.text.push_str("no end\n")?;
    }
    Ok(sheet.text)
}

impl Sheet {
    fn add(&mut self, line: &str) -> Result<(), AllocError> {
        let alloc = self.alloc;
        let (word, rest) = line.split_once(' ').unwrap_or((line, ""));
        match word {
            "each" | "cuts" | "again" | "part" if self.is_open => self.text.push_str("no end\n"),
            "each" => self.open("", items_of(alloc, rest)?),
            "cuts" => self.open("", beginnings_of(alloc, rest)?),
            "part" => self.open(rest, Vec::new(alloc)),
            "again" => self.repeat("", &items_of(alloc, rest)?),
            "do" => {
                let (name, items) = rest.split_once(' ').unwrap_or((rest, ""));
                self.repeat(name, &items_of(alloc, items)?)
            }
            "end" => self.close(),
            _ => {
                self.write(line)?;
                self.write("\n")
            }
        }
    }

    // Adds to the open lines, or to the lines written out if none are open.
    fn write(&mut self, text: &str) -> Result<(), AllocError> {
        if self.is_open {
            self.lines.push_str(text)
        } else {
            self.text.push_str(text)
        }
    }

    fn open(&mut self, name: &str, items: Vec<String>) -> Result<(), AllocError> {
        self.name = String::from_str(self.alloc, name)?;
        self.lines = String::new(self.alloc);
        self.items = items;
        self.is_open = true;
        Ok(())
    }

    fn close(&mut self) -> Result<(), AllocError> {
        self.is_open = false;
        let name = mem::replace(&mut self.name, String::new(self.alloc));
        let lines = mem::replace(&mut self.lines, String::new(self.alloc));
        let items = mem::replace(&mut self.items, Vec::new(self.alloc));
        self.parts.push((name.clone()?, lines))?;
        self.repeat(name.as_str(), &items)
    }

    // Adds the last lines of the name, for each of the items.
    fn repeat(&mut self, name: &str, items: &[String]) -> Result<(), AllocError> {
        let mut lines = String::from_str(self.alloc, "no part\n")?;
        for (it, text) in &self.parts {
            if it.as_str() == name {
                lines = text.clone()?;
            }
        }
        for item in items {
            let text = filled(self.alloc, lines.as_str(), item.as_str())?;
            self.write(text.as_str())?;
        }
        Ok(())
    }
}

// Returns the lines with an item in its places.
fn filled(alloc: Global, lines: &str, item: &str) -> Result<String, AllocError> {
    let mut text = String::new(alloc);
    for piece in lines.split('{') {
        match piece.split_once('}') {
            Some((place, rest)) => {
                text.push_str(words_at(item, place))?;
                text.push_str(rest)?;
            }
            None => text.push_str(piece)?,
        }
    }
    Ok(text)
}

// Returns the part of an item that a place names.
fn words_at<'a>(item: &'a str, place: &str) -> &'a str {
    let (digits, is_more) = match place.split_once('+') {
        Some((digits, _)) => (digits, true),
        None => (place, place.is_empty()),
    };
    let number = digits.parse().unwrap_or(1usize);
    for (before, rest) in item.splitn(number, ' ').enumerate() {
        if before.saturating_add(1) == number {
            return match rest.split_once(' ') {
                Some((word, _)) if !is_more => word,
                _ => rest,
            };
        }
    }
    ""
}

fn items_of(alloc: Global, list: &str) -> Result<Vec<String>, AllocError> {
    let mut items = Vec::new(alloc);
    for item in list.split(", ") {
        items.push(String::from_str(alloc, item)?)?;
    }
    Ok(items)
}

fn beginnings_of(alloc: Global, text: &str) -> Result<Vec<String>, AllocError> {
    let mut items = Vec::new(alloc);
    let mut beginning = String::new(alloc);
    for letter in text.chars() {
        beginning.push(letter)?;
        items.push(beginning.clone()?)?;
    }
    Ok(items)
}

const LINES: &str = "\
one
each 1 x, 2 y
{1}: {} {2}{2}
end
part p
> {} {2+}|
end
cuts at6
+ {}
end
again z, 7 7
each a, b
do p {} 2 3, 4
end
do p
do q
two
";

const WRITTEN_OUT: &str = "\
one
1: 1 x xx
2: 2 y yy
+ a
+ at
+ at6
+ z
+ 7 7
> a 2 3 2 3|
> 4 |
> b 2 3 2 3|
> 4 |
>  |
no part
two
";

#[test]
fn lines_are_written_out_for_each_item(rt: HostRuntime) -> Result<(), Fail> {
    let text = written_out(rt.alloc(), LINES)?;
    assert_eq!(rt; text.as_str(), WRITTEN_OUT);
    let text = written_out(rt.alloc(), "one\neach 1, 2\n{}\n")?;
    assert_eq!(rt; text.as_str(), "one\nno end\n");
    let text = written_out(rt.alloc(), "each 1, 2\ncuts a\n{}\nend\n")?;
    assert_eq!(rt; text.as_str(), "no end\n1\n2\n");
    Ok(())
}
