//! Room for what a farm hands back.
ghost use Rattle.std.specs.Prelude.{◌≡◌, ◌≤◌, length, map, IfOk, IfErr};
ghost use Rattle.build_server.specs.Builds.{builder_of};
ghost use Rattle.line_program.specs.declared.fault.FarmFault.TheVariants as fault;
ghost use Rattle.farm_stations.specs.Post.{outside_of};
ghost use Rattle.farm_run.specs.Stops.{folders_in, AreGiven};

use dist_types::builder::BuilderIncoming;
use farm_stations::station::Station;
use folders::folder::Folder;
use line_program::fault::FarmFault;
use std::alloc::Global;
use std::marker::Model;

/// Room for the folders and the builders of so many servers: so a farm hands them back without memory.
#[derive(Drop)]
pub(crate) struct Room<F: Folder + Drop, B: BuilderIncoming + Drop> {
    folders: Vec<F>,
    builders: Vec<B>,
}

impl<F: Folder + Drop, B: BuilderIncoming + Drop> Model for Room<F, B> {
    ghost use Rattle.std.specs.Prelude.{◌≡◌, ℕ, [], vec_capacity};

    ghost Value = { ℕ };

    ghost view = { λ r. vec_capacity r.folders };

    ghost invariant = { λ r. (r.folders.items ≡ []) × (r.builders.items ≡ [])
        × (vec_capacity r.builders ≡ vec_capacity r.folders) };
}

impl<F: Folder + Drop, B: BuilderIncoming + Drop> Room<F, B> {
    /// Room for so many servers. Refused for want of memory alone.
    pub fn of(alloc: Global, servers: usize) -> Result<Self, FarmFault>
        ensures room { IfOk result (λ room. room ≡ servers) }
        ensures err { IfErr result (λ e. e ≡ fault.Memory) }
    {
        let folders = Vec::with_capacity(alloc, servers)?;
        let builders = Vec::with_capacity(alloc, servers)?;
        Ok(Room { folders, builders })
    }

    /// The folder and the builder of each station, in the order of the stations. It takes no memory.
    pub fn fill(self, stations: Vec<Station<F, B>>) -> (Vec<F>, Vec<B>)
        requires room { length stations.items ≤ self }
        ensures folders { map F.held result.0.items ≡ folders_in (map outside_of stations.items) }
        ensures builders { AreGiven (builder_of B.built B.refusals) B.answers (map (λ st. st.hand) stations.items)
            result.1.items }
    {
        let Room {
            mut folders,
            mut builders,
        } = self;
        for station in stations {
            let (folder, builder) = station.into_parts();
            folders.push_reserved(folder);
            builders.push_reserved(builder);
        }
        (folders, builders)
    }
}
