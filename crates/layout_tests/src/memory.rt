use crate::example::EXAMPLE;
use fab_types::DomainId;
use host_memory::HostMemory;
use layout::Layout;
use std::test::Fail;

#[test]
fn what_is_written_through_a_part_is_read_back(rt: HostRuntime) -> Result<(), Fail> {
    let layout = Layout::read(rt.alloc(), EXAMPLE)?;
    let domain = DomainId::new(1).ok_or("no domain")?;
    let start = layout.start(rt.alloc(), domain)?.ok_or("no start")?;
    let mut memory = HostMemory::new(rt.alloc(), &start)?;
    memory.write(0, 4094, &[1, 2]);
    if let Some(part) = memory.part_mut(0, 4095..4096) {
        part.copy_from_slice(&[7]);
    }
    assert_eq!(rt; memory.part(0, 4093..4096), Some([0, 1, 7].as_slice()));
    Ok(())
}
