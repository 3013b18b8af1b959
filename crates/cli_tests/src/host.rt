//! The house of the system, over files of this machine.
use causes::{Failed, FaultCount};
use farm_text::Draws;
use houses::{HostHouse, House};
use http_wire::Source;
use std::io::ErrorKind;
use std::test::Fail;

/// What comes of reading a byte of a farm file of this name, which goes back to the house.
fn read_byte(house: &mut HostHouse, name: &str) -> &'static str {
    match house.farm_file(name) {
        Ok(file) => {
            let mut file = file;
            let read = file.read(&mut [0u8; 1]);
            house.back_farm_file(file);
            match read {
                Ok(0) => "empty",
                Ok(_) => "a byte",
                Err(Failed) => "unread",
            }
        }
        Err(Failed) => "refused",
    }
}

/// The same of a file that is missing, of a folder and of an empty file, and the reasons that a house gives before them, after the first and
/// after the second.
fn read_files(house: &mut HostHouse) -> ([&'static str; 3], [Option<ErrorKind>; 3]) {
    let none = house.reason();
    let missing = read_byte(house, "no/such/farm.toml");
    let first = house.reason();
    let folder = read_byte(house, "/");
    let second = house.reason();
    let empty = read_byte(house, "/dev/null");
    ([missing, folder, empty], [none, first, second])
}

/// Whether two draws of a house, which go back to it, give different ids.
fn draw_apart(house: &mut HostHouse) -> bool {
    let mut draws = house.draws();
    let mut others = house.draws();
    let is_other = draws.draw().uuid() != others.draw().uuid();
    house.back_draws(draws);
    house.back_draws(others);
    is_other
}

/// All of that, of the house of the system.
fn lend(rt: HostRuntime) -> Result<([&'static str; 3], [Option<ErrorKind>; 3], bool), Fail> {
    let mut house = HostHouse::new(rt, &mut FaultCount::new())?;
    let (files, reasons) = read_files(&mut house);
    let is_other = draw_apart(&mut house);
    drop(house);
    Ok((files, reasons, is_other))
}

#[test]
fn the_system_lends_files_and_draws(rt: HostRuntime) -> Result<(), Fail> {
    let (files, reasons, is_other) = lend(rt)?;
    let wanted = [
        None,
        Some(ErrorKind::NotFound),
        Some(ErrorKind::IsADirectory),
    ];
    let are_so = files == ["refused", "unread", "empty"];
    assert_eq!(rt; [are_so, reasons == wanted, is_other], [true; 3]);
    Ok(())
}
