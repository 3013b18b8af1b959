use crate::load::Load;
use crate::service::Service;
use crate::signing::Signing;
use farm_text::Text;

/// What the words of a command line ask for.
#[derive(Drop)]
pub enum Command {
    /// Work over a farm, which the file of this name sets up.
    OverFarm { farm: Text, work: Work },
    /// The header that signs a request.
    Sign { signing: Signing },
    /// A generated load over a farm in memory.
    Bulk { load: Load },
    /// A template is rendered.
    Render,
}

/// What is done over a farm. A disk has a name, and keeps the farm; without one nothing does.
#[derive(Drop)]
pub enum Work {
    /// One connection is served.
    Answer { disk: Option<Text> },
    /// Scopes are expanded by the farm's roles.
    Expand,
    /// The farm file is checked, and then the disk.
    Check { disk: Option<Text> },
    /// Many connections are served, which come to an address.
    Serve(Service),
}
