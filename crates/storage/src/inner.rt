// The test of option bits, for creation, the layout rule and a state restore; and the options of the header, for their query and a save: nothing here is for a host.
ghost use Rattle.std.specs.Prelude.{◌≡◌, ◌≤◌, length};
ghost use Rattle.rules.specs.Create.{unknown};
ghost use Rattle.tables.specs.Layout.{table_at};
ghost use Rattle.tables.specs.View.{options_from, head_of};
ghost use Rattle.vfs_options.specs.Given.{options_in};

use vfs_options::VfsOptions;

// Whether a bit of either word is outside the mask (R28, R130).
pub fn is_unknown(known: u64, o: VfsOptions) -> bool
    ensures { result ≡ unknown known (options_in o) }
{
    o.in_opts & known != o.in_opts || o.out_opts & known != o.out_opts
}

// The options of the header, with their own mapping (R27, R34).
pub fn options_in(s: &[u8]) -> VfsOptions
    requires { table_at ≤ length s.now }
    ensures { options_in result ≡ options_from (head_of s.now) }
{
    VfsOptions {
        in_opts: le::fields::get_u64(s, tables::places::IN_OPTS_AT),
        out_opts: le::fields::get_u64(s, tables::places::OUT_OPTS_AT),
        id_mapping: tables::header::mapping_at(s, tables::places::OWN_MAPPING_AT),
        flags: le::fields::get_u8(s, tables::places::FLAGS_AT),
    }
}
