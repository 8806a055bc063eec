//! A table of the most lines that a requester may have, page by page and by its groups.

use fab_types::{Bdf, DomainId};
use host_table::{HostTable, Target};
use layout::Layout;
use platform::Access;
use std::test::Fail;

/// One function below one port.
const TREE: &str = "pciefab 1
frames 64
switch 01:00.0 root
port 02:00.0 03 03 90000000 900fffff 1f 1
function 03:00.0 90000000
";

/// The first and the last page that there are, pages at the ends of groups of 512, and others, by rising number.
const PAGES: [u64; 64] = [
    0x0,
    0x3e,
    0x72,
    0x78,
    0x8e,
    0x104,
    0x180,
    0x192,
    0x198,
    0x1ff,
    0x200,
    0x201,
    0x21d,
    0x25f,
    0x27f,
    0x296,
    0x2c5,
    0x2d4,
    0x2d7,
    0x355,
    0x357,
    0x36c,
    0x381,
    0x3d8,
    0x3e7,
    0x3ff,
    0x400,
    0x401,
    0x4b4,
    0x4bc,
    0x4c9,
    0x558,
    0x591,
    0x5ff,
    0x600,
    0x601,
    0xa3d,
    0xab4,
    0xb4d,
    0xb5d,
    0xb65,
    0x9_0033,
    0x9_00ed,
    0x9_011c,
    0x9_012e,
    0x9_017f,
    0x9_0195,
    0x9_019b,
    0x9_01ca,
    0x9_01f6,
    0xf_ffff,
    0x10_0000,
    0x10_0001,
    0xffff_ffff_fdff,
    0xffff_ffff_fe00,
    0xffff_ffff_fe01,
    0x1_600f_8c9e_b9c1,
    0x1_9489_0ef5_e27a,
    0x2_34f8_894f_17fd,
    0x3_69ec_3297_f861,
    0x5_4a63_3b4f_96e0,
    0x6_eb97_db34_4378,
    0xa_58f6_b1a2_1143,
    0xf_ffff_ffff_ffff,
];

/// The function's table: the pages lead to the frames 0 to 63 in turn.
fn full_table(rt: &HostRuntime) -> Result<HostTable, Fail> {
    let mut text = String::from_str(rt.alloc(), TREE)?;
    for (frame, page) in PAGES.iter().enumerate() {
        let line = format!(in rt.alloc(); "map 03:00.0 {page:x} frame {frame} rw\n")?;
        text.push_str(line.as_str())?;
    }
    let layout = Layout::read(rt.alloc(), text.as_str())?;
    let domain = DomainId::new(1).ok_or("no domain")?;
    let start = layout.start(rt.alloc(), domain)?.ok_or("no start")?;
    Ok(HostTable::new(rt.alloc(), &start)?)
}

fn is_found_where_mapped(table: &HostTable, page: u64) -> bool {
    let frame = PAGES.iter().position(|mapped| *mapped == page);
    match table.lookup(Bdf::from_bits(0x0300), page, Access::Write) {
        Target::Frame(found) => frame == Some(usize::from(found)),
        Target::Peer(_) => false,
        Target::None => frame.is_none(),
    }
}

#[test]
fn each_of_64_pages_is_found_and_a_page_beside_it_where_it_is_mapped(
    rt: HostRuntime,
) -> Result<(), Fail> {
    let table = full_table(&rt)?;
    for page in PAGES {
        assert!(rt; is_found_where_mapped(&table, page));
        assert!(rt; is_found_where_mapped(&table, page.saturating_sub(1)));
        assert!(rt; is_found_where_mapped(&table, page.saturating_add(1)));
    }
    Ok(())
}

#[test]
fn the_lines_of_a_requester_stand_in_groups_of_512_pages(rt: HostRuntime) -> Result<(), Fail> {
    let table = full_table(&rt)?;
    let groups = table.groups(Bdf::from_bits(0x0300));
    assert_eq!(rt; groups.len(), 18);
    let first = groups.first().ok_or("no group")?;
    assert_eq!(rt; first.number(), 0);
    assert_eq!(rt; first.lines().len(), 10);
    let last = groups.last().ok_or("no group")?;
    assert_eq!(rt; last.number(), 0x7ff_ffff_ffff);
    assert_eq!(rt; last.lines().len(), 1);
    assert!(rt; table.groups(Bdf::from_bits(0x0400)).is_empty());
    Ok(())
}
