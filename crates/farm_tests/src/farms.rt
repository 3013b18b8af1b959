//! A farm in memory, and farms over disks, asked directly.
use farm_asks::question::{Call, Caller, Question};
use farm_core::Bare;
use farm_desk::Object;
use farm_text::{Moment, SlugId};
use std::test::Fail;

mod calls;
mod stops;

#[test]
fn a_farm_without_a_disk_answers(rt: HostRuntime) -> Result<(), Fail> {
    let alloc = rt.alloc();
    let Some(id) = SlugId::read(b"AAAAAAAAQACAAAAAAAAAAA") else {
        return Err(Fail::from("no slugid"));
    };
    let mut farm = Bare::new(alloc, calls::config(alloc)?);
    let asked = farm.ask(Question::new(Moment::FIRST, id, Caller::Anonymous, Call::Ping));
    drop(farm);
    let told = (asked.reply.body() == "{\"alive\":true}", asked.ticked);
    drop(asked);
    assert_eq!(rt; told, (true, false));
    Ok(())
}
