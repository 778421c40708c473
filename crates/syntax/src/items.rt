// The elements of the syntax, by the six words of the definition.
ghost use Rattle.std.specs.Prelude.{◌≡◌};
ghost use Rattle.syntax.specs.Grammar as grammar;

use crate::{Item, NONE, Role};

// Outside the blocks: of no role, and of a role.
pub fn plain(name: u8) -> Item
    ensures { result ≡ grammar.plain name }
{
    Item {
        name,
        role: Role::Plain,
        block: NONE,
        index: NONE,
        part: NONE,
    }
}

pub fn roled(role: Role, name: u8) -> Item
    ensures { result ≡ grammar.roled role name }
{
    Item {
        name,
        role,
        block: NONE,
        index: NONE,
        part: NONE,
    }
}

// In a block: of no role, with no index and with one, and the part of one that is sent for each; of a role.
pub fn one(block: u8, name: u8) -> Item
    ensures { result ≡ grammar.one block name }
{
    Item {
        name,
        role: Role::Plain,
        block,
        index: NONE,
        part: NONE,
    }
}

pub fn nth(block: u8, name: u8, index: u8) -> Item
    ensures { result ≡ grammar.nth block name index }
{
    Item {
        name,
        role: Role::Plain,
        block,
        index,
        part: NONE,
    }
}

pub fn part_of(block: u8, name: u8, index: u8, part: u8) -> Item
    ensures { result ≡ grammar.part_of block name index part }
{
    Item {
        name,
        role: Role::Plain,
        block,
        index,
        part,
    }
}

pub fn one_roled(block: u8, role: Role, name: u8) -> Item
    ensures { result ≡ grammar.one_roled block role name }
{
    Item {
        name,
        role,
        block,
        index: NONE,
        part: NONE,
    }
}
