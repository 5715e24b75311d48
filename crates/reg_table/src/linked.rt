// The links of rows.
ghost use Rattle.std.specs.Prelude.{◌≡◌, ◌++◌, false, OnOk, OnErr};
ghost use Rattle.reg_table.specs.Links.{link_list, has_link_row, without_link, put_link};

use crate::{Row, Table};
use std::alloc::AllocError;

/// The link of a row, and the row's key.
#[derive(Clone, Copy)]
pub struct Linked<L, K> {
    pub link: L,
    pub key: K,
}

impl<L: Ord + Copy, K: Ord + Copy> Row for Linked<L, K> {
    type Group = L;

    type Place = K;

    ghost group_of = { λ linked. linked.link };

    ghost place_of = { λ linked. linked.key };

    fn group(&self) -> L {
        self.link
    }

    fn place(&self) -> K {
        self.key
    }
}

/// Adds the link of a key, if it has one. On failure the links are as they were.
pub fn add_link<L: Ord + Copy, K: Ord + Copy>(
    links: &mut Table<Linked<L, K>>,
    link: Option<L>,
    key: K,
) -> Result<(), AllocError>
    requires { has_link_row L.eq K.eq link key links.old ≡ false }
    ensures added { OnOk result (links.new ≡ links.old ++ link_list link key) }
    ensures err { OnErr result (links.new ≡ links.old) }
{
    match link {
        None => Ok(()),
        Some(link) => links.push(Linked { link, key }),
    }
}

/// Takes the link of a key away, if it has one. It takes no memory.
pub fn remove_link<L: Ord + Copy, K: Ord + Copy>(
    links: &mut Table<Linked<L, K>>,
    link: Option<L>,
    key: K,
)
    ensures { links.new ≡ without_link L.eq K.eq link key links.old }
{
    if let Some(link) = link {
        links.remove(link, key);
    }
}

/// Puts the link of a key in the place of the one that is equal. It takes no memory.
pub fn replace_link<L: Ord + Copy, K: Ord + Copy>(
    links: &mut Table<Linked<L, K>>,
    link: Option<L>,
    key: K,
)
    ensures { links.new ≡ put_link L.eq K.eq link key links.old }
{
    if let Some(link) = link {
        links.replace(Linked { link, key });
    }
}
