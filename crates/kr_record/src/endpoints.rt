//! The structures in the registration of a broker.

ghost use Rattle.std.specs.Prelude.{refl};
ghost use Rattle.kr_record.specs.Limits.{of_schema};
ghost use Rattle.kr_record.specs.Records.{endpoint_layout, range_layout};

use crate::held::Held;
use crate::parts::Mine;
use kr_base::NoMemory;
use kr_defs::{Endpoint, Range};
use kr_layout::{Get, Put, ReadFault, Reader, put_end};

impl Get<Mine> for Endpoint {
    ghost schema = { endpoint_layout };

    ghost is_whole = { refl };

    fn least() -> usize {
        7
    }

    fn get(from: &mut Reader<'_, Mine>) -> Result<Endpoint, ReadFault> {
        let endpoint = Endpoint {
            name: from.get()?,
            host: from.get()?,
            port: from.get()?,
            protocol: from.get()?,
        };
        from.end()?;
        Ok(endpoint)
    }
}

impl Put<Mine> for Endpoint {
    ghost schema = { endpoint_layout };

    fn put_parts(&self, mine: &Mine, out: &mut Vec<u8>) -> Result<(), NoMemory> {
        self.name.put(mine, out)?;
        self.host.put(mine, out)?;
        self.port.put(mine, out)?;
        self.protocol.put(mine, out)?;
        put_end(out)
    }
}

impl Held for Endpoint {
    ghost held = { (of_schema endpoint_layout).held };

    fn look(&self) {
        self.name.look();
        self.host.look();
        let _port = self.port;
        let _protocol = self.protocol;
    }
}

impl Get<Mine> for Range {
    ghost schema = { range_layout };

    ghost is_whole = { refl };

    fn least() -> usize {
        6
    }

    fn get(from: &mut Reader<'_, Mine>) -> Result<Range, ReadFault> {
        let range = Range {
            name: from.get()?,
            min: from.get()?,
            max: from.get()?,
        };
        from.end()?;
        Ok(range)
    }
}

impl Put<Mine> for Range {
    ghost schema = { range_layout };

    fn put_parts(&self, mine: &Mine, out: &mut Vec<u8>) -> Result<(), NoMemory> {
        self.name.put(mine, out)?;
        self.min.put(mine, out)?;
        self.max.put(mine, out)?;
        put_end(out)
    }
}

impl Held for Range {
    ghost held = { (of_schema range_layout).held };

    fn look(&self) {
        self.name.look();
        let _min = self.min;
        let _max = self.max;
    }
}
