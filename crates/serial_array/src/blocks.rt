//! A content for each block of each object.
ghost use Rattle.std.specs.Prelude.{◌≡◌, ℕ, ◌&&◌, IfOk, Some, nat_lt, length, replicate, is_some, if◌then◌else◌, slice_set, false, position, [], ◌∷◌, ◌++◌, option_map};
ghost use Rattle.raid_base.specs.declared.cells.Content.TheVariants.{Bytes};
ghost use Rattle.raid_base.specs.Cells.{zeros};
ghost use Rattle.raid_base.specs.Names.{is_text};
ghost use Rattle.virtual_objects.specs.Objects.{Address};
ghost use Rattle.serial_array.specs.Blocks.{content_at, contents_of, is_address, first_content, zero_objects};

use raid_base::{Content, Name, NoMemory};
use script_text::Script;
use std::alloc::Global;
use std::marker::Model;

/// An object's name, and the contents of its blocks.
#[derive(Drop)]
struct ObjectBlocks {
    name: Name,
    contents: Vec<Content>,
}

impl Model for ObjectBlocks {
    ghost use Rattle.serial_array.specs.Blocks.{ObjectBlocks};

    ghost Value = { ObjectBlocks };

    ghost view = { λ a. record { name = a.name; contents = a.contents.items } };
}

impl ObjectBlocks {
    /// Blocks of zeros.
    fn make(alloc: Global, name: Name, blocks: usize) -> Result<ObjectBlocks, NoMemory>
        ensures { IfOk result (λ object. object ≡ record { name = name; contents = replicate blocks (Bytes zeros) }) }
    {
        match vec![in alloc; Content::Bytes([0; 64]); blocks] {
            Ok(contents) => Ok(ObjectBlocks { name, contents }),
            Err(_) => Err(NoMemory),
        }
    }

    /// Sets the content of a block, and tells whether there is such a block.
    fn set(&mut self, block: usize, content: Content) -> bool
        ensures there { result ≡ nat_lt block (length self.old.contents) }
        ensures after { self.new ≡ record { name = self.old.name; contents = slice_set self.old.contents block content } }
    {
        if block >= self.contents.len() {
            return false;
        }
        self.contents[block] = content;
        true
    }
}

/// The serial array, as a map from an object's name and the number of a block to a content.
#[derive(Drop)]
pub struct SerialArray {
    objects: Vec<ObjectBlocks>,
}

impl Model for SerialArray {
    ghost use Rattle.std.specs.Prelude.{List};
    ghost use Rattle.serial_array.specs.Blocks.{ObjectBlocks};

    ghost Value = { List ObjectBlocks };

    ghost view = { λ a. a.objects.items };
}

impl SerialArray {
    /// All blocks of the script's objects, with zeros.
    pub fn make(alloc: Global, script: &Script) -> Result<SerialArray, NoMemory>
        ensures value { IfOk result (λ array. array ≡ zero_objects script.now) }
        ensures zeros { IfOk result (λ array. (address : Address) → content_at array address ≡ first_content script.now address) }
    {
        let units = usize::from(script.objects.devices() - 1);
        let mut objects = Vec::new(alloc);
        for object in script.objects.as_slice() {
            let blocks = ObjectBlocks::make(alloc, object.name, object.rows.len() * units)?;
            if objects.push(blocks).is_err() {
                return Err(NoMemory);
            }
        }
        Ok(SerialArray { objects })
    }

    /// Sets the content of a block, and tells whether there is such a block. No other changes.
    pub fn set(&mut self, name: &Name, block: u32, content: Content) -> bool
        ensures there { result ≡ is_some (content_at self.old (record { object = name.now; block = block })) }
        ensures after { (address : Address) → content_at self.new address ≡ (if result && is_address (record { object = name.now; block = block }) address then Some content else content_at self.old address) }
        ensures same { result ≡ false → self.new ≡ self.old }
    {
        match self.index_of(name) {
            Some(index) => self.objects[index].set(block as usize, content),
            None => false,
        }
    }

    /// The content of a block, and none where there is no such block.
    pub fn get(&self, name: &Name, block: u32) -> Option<Content>
        ensures { result ≡ content_at self.now (record { object = name.now; block = block }) }
    {
        match self.contents_of(name) {
            Some(contents) => contents.get(block as usize).copied(),
            None => None,
        }
    }

    /// The contents of an object's blocks.
    fn contents_of(&self, name: &Name) -> Option<&[Content]>
        ensures { option_map (λ contents. contents.now) result ≡ contents_of self.now name.now }
    {
        for object in &self.objects {
            if object.name == *name {
                return Some(object.contents.as_slice());
            }
        }
        None
    }

    /// The place of an object.
    fn index_of(&self, name: &Name) -> Option<usize>
        ensures { result ≡ position (λ object. is_text object.name name.now) self.now }
    {
        self.objects.iter().position(|object| object.name == *name)
    }
}
