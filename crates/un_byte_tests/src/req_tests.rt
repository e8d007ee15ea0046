//! Each public call once, and a pool of one request that is asked twice.

use std::test::Fail;
use un_req::Pool;

#[test]
fn lends_its_one_request_once(rt: HostRuntime) -> Result<(), Fail> {
    let mut pool = Pool::make(rt.alloc(), 1, 16)?;
    assert_eq!(rt; (pool.count(), pool.capacity(), pool.home()), (1, 16, 1));
    let request = pool.take().ok_or("none is home")?;
    assert_eq!(rt;
        (request.number(), request.bytes().len(), pool.home()),
        (0, 0, 0)
    );
    assert!(rt; pool.take().is_none(), "a second request of a pool of one");
    pool.put(request);
    assert_eq!(rt; pool.home(), 1);
    Ok(())
}

#[test]
fn keeps_a_transfer(rt: HostRuntime) -> Result<(), Fail> {
    let mut pool = Pool::make(rt.alloc(), 2, 16)?;
    let mut request = pool.take().ok_or("none is home")?;
    request.push(&[1, 2, 3]);
    request.push_zeros(2);
    request.patch(1, &[7, 8, 9]);
    request.stamp(4, 6, 3);
    assert_eq!(rt; request.bytes(), [1, 7, 8, 9, 0].as_slice());
    assert_eq!(rt;
        (
            request.from(),
            request.to(),
            request.serial(),
            request.capacity()
        ),
        (4, 6, 3, 16)
    );
    request.clear();
    assert_eq!(rt; (request.bytes().len(), request.serial()), (0, 3));
    Ok(())
}
